// A line as it is read: numbers in decimal with a comma between. What is no digit is passed over, and so are the numbers past the fortieth.
ghost use Rattle.std.specs.Prelude.{◌≤◌};

use program_input::{with_digit, word};

#[derive(Clone, Copy)]
pub struct Line {
    pub numbers: [u64; 40],
    // The same modulo two to the power of thirty-two.
    pub words: [u32; 40],
    // The place of the number that is being read.
    pub at: usize,
}

impl Line {
    // The most numbers of a line. The longest call, an offer, has six before its lists, and of each list sixteen are taken.
    pub const MOST: usize = 40;

    pub fn new() -> Line {
        Line {
            numbers: [0; 40],
            words: [0; 40],
            at: 0,
        }
    }

    // Goes on with a byte, which is not the line's end.
    pub fn add(&mut self, b: u8) {
        let i = self.at;
        if Line::MOST <= i {
            return;
        }
        if b == b',' {
            self.at = i + 1;
        } else {
            let n = with_digit(self.numbers[i], b);
            self.numbers[i] = n;
            self.words[i] = word(n);
        }
    }
}

// The length of a list where a line says this one: at most sixteen.
pub fn count(n: u64) -> usize
    ensures { result ≤ 16 }
{
    n.min(16) as usize
}

// The n numbers of a list from a place on, or all that stand there.
pub fn part<T>(list: &[T], from: usize, n: usize) -> &[T] {
    let behind = &list[from.min(list.len())..];
    &behind[..n.min(behind.len())]
}
