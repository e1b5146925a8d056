// The table of field widths by frame kind (document 01, Frames), which reader and writer use, and the shape of a kind's fields.
ghost use Rattle.std.specs.Prelude.{◌≡◌, ◌≤◌, length};
ghost use Rattle.rules_format.specs.Fields.{fixed, repeats};
ghost use Rattle.frame_bytes.specs.field_table.Shapes.{TableHas, Tabled, Shaped};

// THE TABLE, indexed by kind: the widths of its fixed fields, which a 0 ends. There is no kind 0.
const WIDTHS: [[u8; 8]; 10] = [
    [0, 0, 0, 0, 0, 0, 0, 0],
    [8, 10, 10, 10, 8, 0, 0, 0], // 01 set-up: CE, D, M1, M2, A
    [2, 2, 2, 8, 8, 2, 0, 0], // 02 registration: project, developer, kind, study, day, count; levels
    [8, 0, 0, 0, 0, 0, 0, 0], // 03 open: C
    [2, 2, 0, 0, 0, 0, 0, 0], // 04 offer: developer, count; steps of price and level
    [0, 0, 0, 0, 0, 0, 0, 0], // 05 close
    [8, 0, 0, 0, 0, 0, 0, 0], // 06 settle: limit
    [2, 2, 0, 0, 0, 0, 0, 0], // 07 lodging: developer, count; steps of price and level
    [2, 2, 2, 2, 8, 8, 2, 0], // 08 registration with its agent: project, developer, kind, agent, study, day, count; levels
    [2, 0, 0, 0, 0, 0, 0, 0], // 09 cancellation: developer
];

// How many fields follow for each one that the last fixed field counts, indexed by kind: levels one by one, steps by price and level.
const EACH: [u8; 10] = [0, 0, 1, 0, 2, 0, 0, 2, 1, 0];

// The width of each field that follows the fixed ones.
pub const LISTED: usize = 8;

// The most characters of a line.
pub const LONGEST_LINE: usize = 160;

// What the table has of a kind.
#[derive(Clone, Copy)]
pub struct Row {
    pub kind: usize,
    pub widths: [u8; 8],
    pub each: usize,
}

pub fn row_of(kind: usize) -> Option<Row>
    ensures { TableHas kind result }
{
    if kind == 0 || WIDTHS.len() <= kind {
        return None;
    }
    Some(Row {
        kind,
        widths: WIDTHS[kind],
        each: usize::from(EACH[kind]),
    })
}

// How many fixed fields a row has, how many digits they have in all, and the widths of 32 fields: those of the fixed ones, then `LISTED` to the end.
#[derive(Clone, Copy)]
pub struct Shape {
    pub fixed: usize,
    pub span: usize,
    pub widths: [usize; 32],
}

pub fn shape_of(row: Row) -> Shape
    requires { Tabled row.kind row }
    ensures { Shaped row.kind result }
{
    let mut widths = [LISTED; 32];
    let mut span = 0;
    for (i, width) in row.widths.iter().enumerate() {
        if *width == 0 {
            return Shape {
                fixed: i,
                span,
                widths,
            };
        }
        widths[i] = usize::from(*width);
        span += usize::from(*width);
    }
    Shape {
        fixed: row.widths.len(),
        span,
        widths,
    }
}

// How many fields follow the n fixed ones of a row: so many for each one that the last of those counts.
pub fn repeated(row: Row, n: usize, fields: &[u64]) -> usize
    requires { Tabled row.kind row × (n ≡ length (fixed row.kind)) × (n ≤ length fields.now) × (repeats row.kind fields.now ≤ 512) }
    ensures { result ≡ repeats row.kind fields.now }
{
    if row.each == 0 {
        return 0;
    }
    row.each * fields[n - 1] as usize
}
