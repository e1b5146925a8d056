// Digits and fields read.
ghost use Rattle.std.specs.Prelude.{◌≡◌, ◌+◌, ◌≤◌, length, take, drop};
ghost use Rattle.rules_format.specs.Hex.{is_hex, all_hex, value_of, hex_number};

// Whether a byte is one of 0-9 and A-F.
#[tactic(auto, unfolding(rules_format::specs::Hex::is_hex))]
fn is_hex(c: u8) -> bool
    ensures { result ≡ is_hex c }
{
    matches!(c, b'0'..=b'9' | b'A'..=b'F')
}

// Whether all bytes are. No branch ends it early: so several bytes are tested at once.
pub fn all_hex(line: &[u8]) -> bool
    ensures { result ≡ all_hex line.now }
{
    let mut all = true;
    for c in line {
        all &= is_hex(*c);
    }
    all
}

// The value of a digit; some number below 16 of any other byte. No branch tells letters from 0-9: which comes next cannot be foreseen.
pub fn value_of(c: u8) -> u64
    ensures { result ≡ value_of c }
{
    if c < b'0' {
        return 0;
    }
    let letter = u64::from(b'9' < c);
    (u64::from(c) + 9 * letter) % 16
}

// The number that at most 16 digits stand for.
fn number_of(digits: &[u8]) -> u64
    requires { length digits.now ≤ 16 }
    ensures { result ≡ hex_number digits.now }
{
    let mut n = 0;
    for c in digits {
        n = n * 16 + value_of(*c);
    }
    n
}

// The field of `width` digits at `start`.
pub fn field(line: &[u8], start: usize, width: usize) -> u64
    requires { (start + width ≤ length line.now) × (width ≤ 16) }
    ensures { result ≡ hex_number (take width (drop start line.now)) }
{
    number_of(&line[start..start + width])
}
