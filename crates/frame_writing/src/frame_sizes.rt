// Whether a call is writable, and the bytes of its frame (document 02, 2), by the table of field widths that the reader uses.
ghost use Rattle.std.specs.Prelude.{◌≡◌, ◌^◌, ltb, length};
ghost use Rattle.rules_format.specs.Fields.{raw_call};
ghost use Rattle.rules_format.specs.Written.{fit};
ghost use Rattle.frame_writing.specs.frame_sizes.FrameSizes.{frame_size};

use frame_bytes::field_table;
use frame_bytes::field_table::{LISTED, LONGEST_LINE};

// Whether a number has at most so many hexadecimal digits.
fn fits_width(value: u64, width: usize) -> bool
    ensures { result ≡ ltb value (16 ^ width) }
{
    let mut left = value;
    for _ in 0..width {
        left /= 16;
    }
    left == 0
}

// Whether each field fits its own width.
fn fields_fit(widths: &[usize], fields: &[u64]) -> bool
    requires { length widths.now ≡ length fields.now }
    ensures { result ≡ fit widths.now fields.now }
{
    widths
        .iter()
        .zip(fields)
        .all(|(width, field)| fits_width(*field, *width))
}

// How many bytes the frame of a call has; none where the call is not writable. A line that is not too long has at most 32 fields.
pub fn frame_size(kind: usize, fields: &[u64]) -> Option<usize>
    ensures { result ≡ frame_size (raw_call kind fields.now) }
{
    let row = field_table::row_of(kind)?;
    let shape = field_table::shape_of(row);
    let n = fields.len();
    if n < shape.fixed || 32 < n {
        return None;
    }
    let widths = &shape.widths[..n];
    if !fields_fit(widths, fields) {
        return None;
    }
    let more = field_table::repeated(row, shape.fixed, fields);
    if n != shape.fixed + more {
        return None;
    }
    let length = 2 + shape.span + LISTED * more;
    if LONGEST_LINE < length {
        return None;
    }
    Some(length + 1)
}
