// Makes the calls on standard input on the hall, a line each, through the seat that the line names, and prints what each answers, then what the
// seat reads. No frame can say them. The independent implementation makes the same calls and has to print the same.
#![tactic(auto)]

use hall::Hall;
use input::Line;
use std::io;

mod calls;
mod input;
mod output;

// The most buffers of 65,536 bytes that are read.
const MOST_BUFFERS: usize = 64;

// Goes on with the next bytes of the input, from the hall and the line behind those before them.
fn run(rt: &impl Print, hall: &mut Hall, line: &mut Line, text: &[u8]) -> io::Result<()> {
    for b in text {
        if *b == b'\n' {
            *hall = calls::made(rt, *hall, *line)?;
            *line = Line::new();
        } else {
            line.add(*b);
        }
    }
    Ok(())
}

fn main(rt: HostRuntime) -> io::Result<()> {
    let mut hall = Hall::new();
    let mut line = Line::new();
    let mut text = [0; 65_536];
    for _ in 0..MOST_BUFFERS {
        let n = program_input::read_full(&mut rt.stdin(), &mut text)?;
        if n == 0 {
            break;
        }
        run(&rt, &mut hall, &mut line, &text[..n])?;
    }
    Ok(())
}
