// A reply's text written at the start of the tail that it is handed.
#![tactic(auto)]

ghost use Rattle.std.specs.Prelude.{◌≡◌, ◌*◌, ◌≤◌, ◌<◌, length, take};
ghost use mathlib.Core.List.{[], map, flatten};
ghost use Rattle.rules_format.specs.Hex.{digits};
ghost use Rattle.rules_format.specs.Fields.{text_at};
ghost use Rattle.rules_numbers.specs.Lists.{total};
ghost use Rattle.rules_numbers.specs.Tails.{laid};
ghost use Rattle.rules_replies.specs.Replies.{answer_line};
ghost use Rattle.reply_writing.specs.Placed.{most, Puts};
ghost use Rattle.reply_writing.specs.reply_sizes.Texts.{shown_text, text_of};

use crate::reply_sizes::Reply;
use frame_bytes::field_writing;

pub mod reply_bound;
pub mod reply_sizes;

// Writes the first n bytes, two digits each, at the start of `out`.
fn put_bytes(out: &mut [u8], bytes: [u8; 192], n: usize)
    requires { (n ≤ 192) × (2 * n ≤ length out.old) }
    ensures { out.new ≡ laid (flatten (map (digits 2) (take n bytes))) out.old }
{
    for (i, byte) in bytes[..n].iter().enumerate() {
        field_writing::put_hex(&mut out[2 * i..], u64::from(*byte), 2);
    }
}

// Writes the values at the widths at the start of `out`, and gives how many digits that are.
fn put_values(out: &mut [u8], widths: [usize; 8], values: [u64; 8]) -> usize
    requires { total widths ≤ length out.old }
    ensures value { result ≡ total widths }
    ensures out_after { out.new ≡ laid (text_at widths values) out.old }
{
    field_writing::put_fields(out, &widths, &values)
}

// Writes what the reply adds between its answer and its 0A at the start of `out`, and gives how many bytes that are.
fn put_added(out: &mut [u8], reply: Reply) -> usize
    requires { length (shown_text reply) ≤ length out.old }
    ensures value { result ≡ length (shown_text reply) }
    ensures out_after { out.new ≡ laid (shown_text reply) out.old }
{
    if reply.number != 0 {
        return 0;
    }
    let form = reply_sizes::form_of(reply.kind);
    let n = reply.filled.min(form.room);
    let records = put_values(out, form.head, reply.values.head);
    put_bytes(&mut out[records..], reply.awards, n);
    let behind = records + 2 * n;
    behind + put_values(&mut out[behind..], form.tail, reply.values.tail)
}

// Writes the reply at the start of `out`, and gives how many bytes it has.
pub fn put(out: &mut [u8], reply: Reply) -> usize
    requires { length (text_of reply) ≤ length out.old }
    ensures value { result ≡ length (text_of reply) }
    ensures out_after { out.new ≡ laid (text_of reply) out.old }
{
    field_writing::put_hex(out, reply.kind as u64, 2);
    field_writing::put_hex(&mut out[2..], reply.number as u64, 2);
    let end = 4 + put_added(&mut out[4..], reply);
    field_writing::put_byte(&mut out[end..], 10);
    end + 1
}

// ---- at a place of a buffer, where a limit allows it

// Above every limit.
pub const TOO_MANY: usize = 18_446_744_073_709_551_615;

// Writes a reply of kind, answer and 0A alone.
fn put_plain(out: &mut [u8], kind: usize, number: u8)
    requires { 5 ≤ length out.old }
    ensures { out.new ≡ laid (answer_line kind number []) out.old }
{
    field_writing::put_hex(out, kind as u64, 2);
    field_writing::put_hex(&mut out[2..], number as u64, 2);
    field_writing::put_byte(&mut out[4..], 10);
}

// A reply of kind, answer and 0A alone: the place behind it, or one above the limit.
pub fn plain_at(out: &mut [u8], limit: usize, at: usize, kind: usize, number: u8) -> usize
    requires { limit < most }
    ensures { Puts (answer_line kind number []) limit at out.old out.new result }
{
    if limit < at {
        return at;
    }
    if limit - at < 5 {
        return TOO_MANY;
    }
    let end = at + 5;
    if out.len() < end {
        return end;
    }
    put_plain(&mut out[at..], kind, number);
    end
}

// Any reply, likewise.
pub fn reply_at(out: &mut [u8], limit: usize, at: usize, reply: Reply) -> usize
    requires { limit < most }
    ensures { Puts (text_of reply) limit at out.old out.new result }
{
    if limit < at {
        return at;
    }
    let n = reply_sizes::size(reply);
    if limit - at < n {
        return TOO_MANY;
    }
    let end = at + n;
    if out.len() < end {
        return end;
    }
    put(&mut out[at..], reply);
    end
}
