// What stands around a reply in words and decimal numbers, an item a line: before a closing's its preview, below an accepted one what it says, and
// the supply curve; below an accepted settling what it says. Each writer takes a place in the lent buffer and gives the place behind what it wrote.
#![tactic(auto)]

ghost use Rattle.std.specs.Prelude.{◌+◌, ◌≤◌, length};
ghost use Rattle.trace_text.specs.Words.{closing_lines, closed_lines, preview_line, point_line, lines_before, lines_below};
ghost use Rattle.trace_text.specs.decimal_text.Puts.{Puts};

use engine_looks::readings::Preview;
use engine_refusals::{Refusal, answer_number};
use engine_settling::Settlement;

pub mod award_text;
pub mod decimal_text;
pub mod settling_text;

// Zeros: where no preview is looked at, and in the places of a refused one.
pub const NO_PREVIEW: Preview = Preview {
    excess: 0,
    remainder: 0,
    closed: false,
};

// What an accepted closing says.
fn put_closing(out: &mut [u8], at: usize, closing: Preview) -> usize
    requires { at + 100 ≤ length out.old }
    ensures { Puts (closing_lines closing) 100 out.old out.new at result }
{
    let excess = reply_values::bits_of(closing.excess);
    let next = decimal_text::put_signed_item(out, at, b"excess ", excess);
    decimal_text::put_item(out, next, b"remainder ", closing.remainder as u64)
}

// The same by its preview, which answers as the closing does.
fn put_closed(out: &mut [u8], at: usize, preview: Result<Preview, Refusal>) -> usize
    requires { at + 100 ≤ length out.old }
    ensures { Puts (closed_lines preview) 100 out.old out.new at result }
{
    put_closing(out, at, preview.unwrap_or(NO_PREVIEW))
}

// The line before a closing's reply (document 02, 6): of a refused one the number, and zeros.
fn put_preview(out: &mut [u8], at: usize, preview: Result<Preview, Refusal>) -> usize
    requires { at + 100 ≤ length out.old }
    ensures { Puts (preview_line preview) 100 out.old out.new at result }
{
    let number = answer_number(&preview);
    let shown = preview.unwrap_or(NO_PREVIEW);
    let named = decimal_text::put_name(out, at, b"preview ");
    let numbered = decimal_text::put_number(out, named, number as u64, 32);
    let bits = reply_values::bits_of(shown.excess);
    let excess = decimal_text::put_signed(out, numbered, bits, 32);
    let remainder = decimal_text::put_number(out, excess, shown.remainder as u64, 32);
    decimal_text::put_number(out, remainder, reply_values::mark(shown.closed), 10)
}

// A point of the supply curve (document 02, 9).
pub fn put_point(out: &mut [u8], at: usize, price: u32, before: u64, after: u64) -> usize
    requires { at + 100 ≤ length out.old }
    ensures { Puts (point_line price before after) 100 out.old out.new at result }
{
    let named = decimal_text::put_name(out, at, b"curve ");
    let priced = decimal_text::put_number(out, named, price as u64, 32);
    let supplied = decimal_text::put_number(out, priced, before, 32);
    decimal_text::put_number(out, supplied, after, 10)
}

// What stands before a reply of this kind, by the preview of a closing.
pub fn put_before(
    out: &mut [u8],
    at: usize,
    kind: usize,
    preview: Result<Preview, Refusal>,
) -> usize
    requires { at + 100 ≤ length out.old }
    ensures { Puts (lines_before kind preview) 100 out.old out.new at result }
{
    if kind != 5 {
        return at;
    }
    put_preview(out, at, preview)
}

// What stands below a reply of this kind, by the preview of a closing, which answers as the closing does, and the settlement behind the line.
pub fn put_below(
    out: &mut [u8],
    at: usize,
    kind: usize,
    accepted: bool,
    preview: Result<Preview, Refusal>,
    settled: Option<Settlement>,
    awards: [u8; 192],
) -> usize
    requires { at + 3000 ≤ length out.old }
    ensures { Puts (lines_below kind accepted preview settled awards) 3000 out.old out.new at result }
{
    if !accepted {
        return at;
    }
    if kind == 5 {
        return put_closed(out, at, preview);
    }
    if kind == 6 {
        return settling_text::put_settled(out, at, settled, awards);
    }
    at
}
