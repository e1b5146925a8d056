// Frames (document 01, Frames): the call of a line by the table of field widths.
// The contracts are equations with the definitions of the crate `rules_format`.
ghost use Rattle.std.specs.Prelude.{◌≡◌, ◌++◌, ◌+◌, ◌*◌, ◌≤◌, length, take, drop, replicate};
ghost use Rattle.rules_numbers.specs.Lists.{total};
ghost use Rattle.rules_format.specs.Fields.{listed, fixed, repeats, fields_at, read};
ghost use Rattle.frame_bytes.specs.field_table.Shapes.{Tabled};
ghost use Rattle.frame_reading.specs.frames.Decoded.{call_in, Zero};
ghost use Rattle.frame_reading.specs.frames.FixedFields.{ReadsFixed};
ghost use Rattle.frame_reading.specs.frames.KindsRead.{kind_in};

use frame_bytes::field_table::{LISTED, LONGEST_LINE, Row};
use frame_bytes::{field_reading, field_table};

// A frame that was read: its kind, or 0 of a malformed line, and its fields, of which there are `count`.
#[derive(Clone, Copy)]
pub struct Frame {
    pub kind: usize,
    pub count: usize,
    pub fields: [u64; 32],
}

fn no_fields() -> [u64; 32]
    ensures { result ≡ replicate 32 0 }
{
    [0; 32]
}

fn malformed() -> Frame
    ensures { Zero result }
{
    Frame {
        kind: 0,
        count: 0,
        fields: no_fields(),
    }
}

// How far the fixed fields of a line reach: how many there are and where they end.
#[derive(Clone, Copy)]
struct FixedFields {
    count: usize,
    end: usize,
}

// The fixed fields of a line, read by the row of its kind, at the start of the lent array; nothing where the line is too short for them.
fn read_fixed(line: &[u8], row: Row, fields: &mut [u64; 32]) -> Option<FixedFields>
    requires { Tabled row.kind row × (2 ≤ length line.now) × (length fields.old ≡ 32) }
    ensures { ReadsFixed row.kind line.now fields.new result }
{
    let mut at = 2;
    for (n, width) in row.widths.iter().enumerate() {
        let width = usize::from(*width);
        if width == 0 {
            return Some(FixedFields { count: n, end: at });
        }
        if line.len() - at < width {
            return None;
        }
        fields[n] = field_reading::field(line, at, width);
        at += width;
    }
    Some(FixedFields {
        count: row.widths.len(),
        end: at,
    })
}

// The fields from place `start` of a line on, so many more, behind the first ones of the lent array.
fn read_listed(line: &[u8], start: usize, first: usize, more: usize, fields: &mut [u64; 32])
    requires { (first + more ≤ 32) × (start + listed * more ≤ length line.now) × (length fields.old ≡ 32) }
    ensures { take (first + more) fields.new ≡ take first fields.old
        ++ fields_at (replicate more listed) (drop start line.now) }
{
    let mut at = start;
    for n in first..first + more {
        fields[n] = field_reading::field(line, at, LISTED);
        at += LISTED;
    }
}

// A line read by the table; of a malformed line all is zero.
pub fn decode(line: &[u8]) -> Frame
    ensures { (call_in result ≡ read line.now) × (result.kind ≡ 0 → Zero result) }
{
    let len = line.len();
    if len < 2 || LONGEST_LINE < len || !field_reading::all_hex(line) {
        return malformed();
    }
    let Some(row) = field_table::row_of(field_reading::field(line, 0, 2) as usize) else {
        return malformed();
    };
    let mut fields = no_fields();
    let Some(fixed) = read_fixed(line, row, &mut fields) else {
        return malformed();
    };
    let more = field_table::repeated(row, fixed.count, &fields);
    if len != fixed.end + LISTED * more {
        return malformed();
    }
    read_listed(line, fixed.end, fixed.count, more, &mut fields);
    Frame {
        kind: row.kind,
        count: fixed.count + more,
        fields,
    }
}

// How many fields follow the fixed ones, which have `span` digits: so many for each one that their last two digits count.
fn counted_in(line: &[u8], row: Row, span: usize) -> usize
    requires { Tabled row.kind row × (span ≡ total (fixed row.kind)) × (2 + span ≤ length line.now) }
    ensures { (result ≡ repeats row.kind (fields_at (fixed row.kind) (drop 2 line.now))) × (result ≤ 512) }
{
    if row.each == 0 {
        return 0;
    }
    row.each * field_reading::field(line, span, 2) as usize
}

// The kind of the frame in a line, 0 of a malformed line: for who asks no more of it, as no field but the count is read.
pub fn kind_in(line: &[u8]) -> usize
    ensures { result ≡ kind_in line.now }
{
    let size = line.len();
    if size < 2 || LONGEST_LINE < size || !field_reading::all_hex(line) {
        return 0;
    }
    let Some(row) = field_table::row_of(field_reading::field(line, 0, 2) as usize) else {
        return 0;
    };
    let span = field_table::shape_of(row).span;
    if size < 2 + span {
        return 0;
    }
    let more = counted_in(line, row, span);
    if size != 2 + span + LISTED * more {
        return 0;
    }
    row.kind
}
