// A bound on the bytes of the replies to a record or a session by its lines alone: no call is made.
ghost use Rattle.std.specs.Prelude.{◌≡◌, leb};
ghost use Rattle.reply_writing.specs.reply_bound.Bounds.{most_by, most_by_all};

use crate::reply_sizes;
use frame_bytes::{field_reading, lines};

// At least as many bytes as the reply to a line has, by the digit at this place.
fn most(line: &[u8], place: usize) -> usize
    ensures { result ≡ most_by place line.now }
{
    if line.len() <= place {
        return reply_sizes::most(0);
    }
    reply_sizes::most(field_reading::value_of(line[place]) as u8)
}

// Whether so many bytes are surely enough for the replies, where the second digit of each line's kind stands at this place.
pub fn enough(bytes: &[u8], place: usize, limit: usize) -> bool
    ensures { result ≡ leb (most_by_all place bytes.now) limit }
{
    let mut start: usize = 0;
    let mut sum: usize = 0;
    while start < bytes.len() {
        let line = lines::next_line(bytes, start);
        let n = most(line, place);
        if limit - sum < n {
            return false;
        }
        sum += n;
        start = start + line.len() + 1;
    }
    true
}
