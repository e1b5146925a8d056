// The award records of a reply in words and decimal numbers, a line each.
ghost use Rattle.std.specs.Prelude.{◌≡◌, ◌+◌, ◌*◌, ◌≤◌, ◌<◌, length, get_or};
ghost use Rattle.trace_text.specs.decimal_text.Puts.{Puts};
ghost use Rattle.trace_text.specs.award_text.AwardLines.{quantity_at, award_line, award_lines};

use crate::decimal_text;

fn byte_at(awards: [u8; 192], i: usize) -> u64
    requires { i < 192 }
    ensures { (result ≡ get_or awards i 0) × (result < 256) }
{
    u64::from(awards[i])
}

fn quantity_at(awards: [u8; 192], i: usize) -> u64
    requires { i + 5 < 192 }
    ensures { result ≡ quantity_at awards i }
{
    let first = byte_at(awards, i + 2);
    let second = byte_at(awards, i + 3);
    let third = byte_at(awards, i + 4);
    ((first * 256 + second) * 256 + third) * 256 + byte_at(awards, i + 5)
}

// The award record that starts at place i.
fn put_award(out: &mut [u8], at: usize, awards: [u8; 192], i: usize) -> usize
    requires { (i + 5 < 192) × (at + 69 ≤ length out.old) }
    ensures { Puts (award_line awards i) 69 out.old out.new at result }
{
    let named = decimal_text::put_name(out, at, b"award ");
    let project = decimal_text::put_number(out, named, byte_at(awards, i), 32);
    let developer = decimal_text::put_number(out, project, byte_at(awards, i + 1), 32);
    decimal_text::put_number(out, developer, quantity_at(awards, i), 10)
}

// The first n award records.
pub fn put_awards(out: &mut [u8], at: usize, awards: [u8; 192], n: usize) -> usize
    requires { (n ≤ 32) × (at + 69 * n ≤ length out.old) }
    ensures { Puts (award_lines awards n) (69 * n) out.old out.new at result }
{
    let mut next = at;
    for i in 0..n {
        next = put_award(out, next, awards, 6 * i);
    }
    next
}
