// The next line of a record (document 01, Frames).
ghost use Rattle.std.specs.Prelude.{◌≡◌, ◌≤◌, length};
ghost use Rattle.rules_numbers.specs.Lists.{part};
ghost use Rattle.rules_format.specs.Lines.{run, line_start, line_end};

// How many bytes stand before the first 0A, or before the end.
fn run_of(bytes: &[u8]) -> usize
    ensures { (result ≡ run bytes.now) × (result ≤ length bytes.now) }
{
    bytes
        .iter()
        .position(|c| *c == b'\n')
        .unwrap_or(bytes.len())
}

// The next line of a record, as that part of it, without its 0A; at its end or past it the empty part there.
pub fn next_line(bytes: &[u8], at: usize) -> &[u8]
    ensures { result.now ≡ part bytes.now (line_start bytes.now at) (line_end bytes.now at) }
{
    let rest = &bytes[at.min(bytes.len())..];
    &rest[..run_of(rest)]
}
