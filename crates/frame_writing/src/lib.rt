// The frame of a call (document 02, 2), by the table of field widths that the reader uses, with its 0A, written at the start of a lent buffer.
// The contracts are equations with the definitions of the crate `rules_format`.
#![tactic(auto)]

ghost use Rattle.std.specs.Prelude.{◌≡◌, true, ◌≤◌, length};
ghost use Rattle.rules_numbers.specs.Tails.{laid};
ghost use Rattle.rules_format.specs.Fields.{raw_call};
ghost use Rattle.rules_format.specs.Written.{line_of, writable};
ghost use Rattle.frame_writing.specs.Encodes.{written_in, Encodes};

use engine_refusals::Refusal;
use frame_bytes::{field_table, field_writing};

pub mod each_call;
pub mod frame_sizes;

// Writes the line of a writable call at the start of a buffer.
fn put_line(kind: usize, fields: &[u64], out: &mut [u8])
    requires { (writable (raw_call kind fields.now) ≡ true) × (length (line_of (raw_call kind fields.now)) ≤ length out.old) }
    ensures { out.new ≡ laid (line_of (raw_call kind fields.now)) out.old }
{
    let shape = field_table::shape_of(field_table::row_of(kind).unwrap());
    let widths = shape.widths;
    let n = fields.len();
    field_writing::put_hex(out, kind as u64, 2);
    field_writing::put_fields(&mut out[2..], &widths[..n], fields);
}

// Writes the frame of a call at the start of a buffer, and answers how many bytes that are. Checks: 14, that the call is writable; 13, that the buffer
// has room for the frame. The bytes behind it stay, and a refusal leaves every byte.
pub fn encode(kind: usize, fields: &[u64], out: &mut [u8]) -> Result<usize, Refusal>
    ensures { Encodes (raw_call kind fields.now) out.old out.new (written_in result) }
{
    let size = frame_sizes::frame_size(kind, fields).ok_or(Refusal::NotWritable)?;
    if out.len() < size {
        return Err(Refusal::FrameBufferTooShort);
    }
    put_line(kind, fields, out);
    let end = size - 1;
    field_writing::put_byte(&mut out[end..], b'\n');
    Ok(size)
}
