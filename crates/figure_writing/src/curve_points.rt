// The points of a supply curve written as numbers: of each, falling, the price, supply before it and supply after it.
ghost use Rattle.std.specs.Prelude.{◌≡◌, ◌*◌, ◌≤◌, length, take};
ghost use Rattle.rules_numbers.specs.Tails.{laid};
ghost use Rattle.figure_writing.specs.curve_points.Points.{points_from};

use engine_curve::kept_curve::SupplyCurve;

// Writes the first `count` points of a curve's words over the start of the lent numbers; `first` is the supply before the first one.
pub fn put_points(words: [u64; 256], count: usize, first: u64, points: &mut [u64])
    requires { 3 * count ≤ length points.old }
    ensures { points.new ≡ laid (points_from first (take count words)) points.old }
{
    let mut before = first;
    for (i, word) in words[..count.min(SupplyCurve::MOST)].iter().enumerate() {
        let after = word % SupplyCurve::PRICE;
        points[3 * i] = word / SupplyCurve::PRICE;
        points[3 * i + 1] = before;
        points[3 * i + 2] = after;
        before = after;
    }
}
