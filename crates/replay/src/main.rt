// Reads a record from standard input and writes what `print` gives for it: its replies, or FF0B where it is longer than 65,536 bytes or they are.
#![tactic(auto)]

use std::io;

fn main(rt: HostRuntime) -> io::Result<()> {
    // One byte more than a record may have, so that a longer one is seen.
    let mut record = [0; 65_537];
    let n = program_input::read_full(&mut rt.stdin(), &mut record)?;
    let mut out = [0; 65_536];
    let written = record_replay::print(&record[..n], &mut out);
    rt.write_all(&out[..written])
}
