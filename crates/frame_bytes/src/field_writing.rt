// Digits, bytes and fields written at the start of a lent buffer; the bytes behind them stay.
ghost use Rattle.std.specs.Prelude.{◌≡◌, [], ◌∷◌, ◌≤◌, ◌<◌, length};
ghost use Rattle.rules_numbers.specs.Lists.{total};
ghost use Rattle.rules_numbers.specs.Tails.{laid};
ghost use Rattle.rules_format.specs.Hex.{char_of, digits};
ghost use Rattle.rules_format.specs.Fields.{text_at};

// The digit of a value below 16.
#[tactic(auto, unfolding(rules_format::specs::Hex::char_of))]
fn digit_of(d: u64) -> u8
    requires { d < 16 }
    ensures { result ≡ char_of d }
{
    if d < 10 {
        b'0' + d as u8
    } else {
        b'A' - 10 + d as u8
    }
}

// Writes the last `width` digits of a number at the start of a buffer.
pub fn put_hex(out: &mut [u8], value: u64, width: usize)
    requires { width ≤ length out.old }
    ensures { out.new ≡ laid (digits width value) out.old }
{
    let mut left = value;
    for i in (0..width).rev() {
        out[i] = digit_of(left % 16);
        left /= 16;
    }
}

// Writes one byte at the start of a buffer.
pub fn put_byte(out: &mut [u8], b: u8)
    requires { 1 ≤ length out.old }
    ensures { out.new ≡ laid (b ∷ []) out.old }
{
    out[0] = b;
}

// How many digits fields of these widths have.
pub fn span_of(widths: &[usize]) -> usize
    requires { total widths.now ≤ 65536 }
    ensures { result ≡ total widths.now }
{
    widths.iter().sum()
}

// Writes values at their widths, one behind the other, at the start of a buffer, and gives how many digits that are.
pub fn put_fields(out: &mut [u8], widths: &[usize], values: &[u64]) -> usize
    requires { (length widths.now ≤ length values.now) × (total widths.now ≤ length out.old) }
    ensures value { result ≡ total widths.now }
    ensures out_after { out.new ≡ laid (text_at widths.now values.now) out.old }
{
    let mut at = 0;
    for (width, value) in widths.iter().zip(values) {
        put_hex(&mut out[at..], *value, *width);
        at += *width;
    }
    at
}
