// Names and decimal numbers as text. Each writer takes a place in the lent buffer and gives the place behind what it wrote.
ghost use Rattle.std.specs.Prelude.{◌+◌, ◌≤◌, length};
ghost use Rattle.trace_text.specs.decimal_text.Decimal.{decimal};
ghost use Rattle.trace_text.specs.decimal_text.Items.{number_item, signed, item, signed_item};
ghost use Rattle.trace_text.specs.decimal_text.Puts.{Puts};

// ---- parts of a line

pub fn put_name(out: &mut [u8], at: usize, name: &[u8]) -> usize
    requires { at + length name.now ≤ length out.old }
    ensures { Puts name.now (length name.now) out.old out.new at result }
{
    let end = at + name.len();
    out[at..end].copy_from_slice(name);
    end
}

// The digits of a number, high first.
fn put_decimal(out: &mut [u8], at: usize, n: u64) -> usize
    requires { at + length (decimal n) ≤ length out.old }
    ensures { Puts (decimal n) (length (decimal n)) out.old out.new at result }
{
    if n < 10 {
        out[at] = 48 + n as u8;
        return at + 1;
    }
    let last = put_decimal(out, at, n / 10);
    out[last] = 48 + (n % 10) as u8;
    last + 1
}

// A number and the byte behind it.
pub fn put_number(out: &mut [u8], at: usize, n: u64, behind: u8) -> usize
    requires { at + 21 ≤ length out.old }
    ensures { Puts (number_item n behind) 21 out.old out.new at result }
{
    let next = put_decimal(out, at, n);
    out[next] = behind;
    next + 1
}

// The same of the signed number that 64 bits in two's complement stand for.
pub fn put_signed(out: &mut [u8], at: usize, bits: u64, behind: u8) -> usize
    requires { at + 22 ≤ length out.old }
    ensures { Puts (signed bits behind) 22 out.old out.new at result }
{
    if bits < 0x8000_0000_0000_0000 {
        return put_number(out, at, bits, behind);
    }
    out[at] = 45;
    put_number(out, at + 1, 0xffff_ffff_ffff_ffff - bits + 1, behind)
}

// ---- lines

// A name, which ends with a blank, a number and 0A.
pub fn put_item(out: &mut [u8], at: usize, name: &[u8], n: u64) -> usize
    requires { at + (length name.now + 21) ≤ length out.old }
    ensures { Puts (item name.now n) (length name.now + 21) out.old out.new at result }
{
    let next = put_name(out, at, name);
    put_number(out, next, n, 10)
}

pub fn put_signed_item(out: &mut [u8], at: usize, name: &[u8], bits: u64) -> usize
    requires { at + (length name.now + 22) ≤ length out.old }
    ensures { Puts (signed_item name.now bits) (length name.now + 22) out.old out.new at result }
{
    let next = put_name(out, at, name);
    put_signed(out, next, bits, 10)
}
