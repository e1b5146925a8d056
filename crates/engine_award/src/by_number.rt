// What stands under a number in an array by number: developer or project n at place n - 1.
ghost use Rattle.std.specs.Prelude.{◌≡◌, ◌∷◌, get_or};

// What stands under number n; `none` where n is no number.
pub fn of_number<T: Copy>(xs: &[T; 32], n: u8, none: T) -> T
    ensures { result ≡ get_or (none ∷ xs.now) n none }
{
    match n {
        1..=32 => xs[usize::from(n) - 1],
        _ => none,
    }
}
