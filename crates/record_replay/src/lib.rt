// A record or a session replayed into a lent buffer (document 01, Frames). Nothing is written unless all fits.
#![tactic(auto)]

ghost use Rattle.std.specs.Prelude.{◌≡◌, cond, [], ◌≤◌, ◌<◌, length};
ghost use Rattle.rules_numbers.specs.Tails.{laid};
ghost use Rattle.rules_replies.specs.Replies.{answer_line, replies};
ghost use Rattle.rules_seats.specs.sessions.Sessions.{session_replies};
ghost use Rattle.reply_writing.specs.Placed.{most};
ghost use Rattle.record_replay.specs.Replayed.{replies_of, hosted, over, Replied, Fitted, longest_record, printed};

use engine_auction::Auction;
use engine_refusals::Refusal;
use record_lines::record_start;
use reply_writing::reply_bound;

pub mod host_numbers;
pub mod record_auction;
pub mod record_forcing;
pub mod session_record;

// The most bytes of a record, and of its replies, in the program.
const LONGEST_RECORD: usize = 65_536;

// Bytes that replies are written to first where their lines leave open whether they fit: a record of ordinary size is then read once. Each such replay
// clears them, and the stack has them besides what the calls take (include/reference_engine.h), so there are no more.
const SCRATCH: usize = 24_576;

// The replies to a session, from a fresh hall on: their number of bytes.
fn run_session(bytes: &[u8], limit: usize, out: &mut [u8]) -> usize
    requires { limit < most }
    ensures { Replied (session_replies bytes.now) limit out.old out.new result }
{
    let auction = Auction::new();
    let ran = record_replies::run(auction, bytes, true, 0, limit, 0, out);
    ran.written
}

// The replies to a record or, where `seated` says so, to a session: their number of bytes. A record's first line that sets the auction up is answered before
// the auction is made, which is not done for a record of that line alone.
fn run_fresh(bytes: &[u8], seated: bool, limit: usize, out: &mut [u8]) -> usize
    requires { limit < most }
    ensures { Replied (replies_of seated bytes.now) limit out.old out.new result }
{
    if seated {
        return run_session(bytes, limit, out);
    }
    let begun = record_start::begin(bytes, limit, out);
    if bytes.len() <= begun.read {
        return begun.written;
    }
    let mut auction = Auction::new();
    auction.clock = begun.clock;
    let ran = record_replies::run(auction, bytes, false, begun.read, limit, begun.written, out);
    ran.written
}

// Writes the replies, if they fit, through a scratch buffer: from there they are copied. What is too long for it is computed again.
fn replies_by_scratch(
    bytes: &[u8],
    seated: bool,
    scratch: &mut [u8],
    out: &mut [u8],
) -> Result<usize, Refusal>
    ensures { Fitted (replies_of seated bytes.now) out.old out.new result }
{
    let room = out.len();
    let n = run_fresh(bytes, seated, room, scratch);
    if room < n {
        return Err(Refusal::BufferTooShort);
    }
    if n <= scratch.len() {
        out[..n].copy_from_slice(&scratch[..n]);
        return Ok(n);
    }
    Ok(run_fresh(bytes, seated, n, out))
}

fn replies_tried(bytes: &[u8], seated: bool, out: &mut [u8]) -> Result<usize, Refusal>
    ensures { Fitted (replies_of seated bytes.now) out.old out.new result }
{
    let mut scratch = [0u8; SCRATCH];
    replies_by_scratch(bytes, seated, &mut scratch, out)
}

// The place in each line of the second digit of its frame's kind: behind the four digits of a seat in a session.
fn kind_place(seated: bool) -> usize
    ensures { result ≡ cond seated 5 1 }
{
    if seated { 5 } else { 1 }
}

// Writes the replies, if they fit: how many bytes they have.
fn replies_in(bytes: &[u8], seated: bool, out: &mut [u8]) -> Result<usize, Refusal>
    ensures { Fitted (replies_of seated bytes.now) out.old out.new result }
{
    let room = out.len();
    if reply_bound::enough(bytes, kind_place(seated), room) {
        return Ok(run_fresh(bytes, seated, room, out));
    }
    replies_tried(bytes, seated, out)
}

// How many bytes the replies have, or 2^64 less 11 where they do not fit the buffer.
fn replayed(bytes: &[u8], seated: bool, out: &mut [u8]) -> u64
    ensures value { result ≡ hosted (replies_of seated bytes.now) out.old }
    ensures out_after { out.new ≡ over (replies_of seated bytes.now) out.old }
{
    match replies_in(bytes, seated, out) {
        Ok(n) => n as u64,
        Err(refusal) => host_numbers::host_number(Err(refusal)),
    }
}

// Replays a record: how many bytes its replies have, or 2^64 less 11 where they do not fit the buffer.
pub fn replay(bytes: &[u8], out: &mut [u8]) -> u64
    ensures value { result ≡ hosted (replies bytes.now) out.old }
    ensures out_after { out.new ≡ over (replies bytes.now) out.old }
{
    replayed(bytes, false, out)
}

// Replays a session (docs/FORMAT.md, sessions), in the same way.
pub fn session_replay(bytes: &[u8], out: &mut [u8]) -> u64
    ensures value { result ≡ hosted (session_replies bytes.now) out.old }
    ensures out_after { out.new ≡ over (session_replies bytes.now) out.old }
{
    replayed(bytes, true, out)
}

// Writes FF0B and 0A, and gives their number of bytes.
fn put_refusal(out: &mut [u8]) -> usize
    requires { 5 ≤ length out.old }
    ensures { (result ≡ length (answer_line 255 11 [])) × (out.new ≡ laid (answer_line 255 11 []) out.old) }
{
    reply_writing::plain_at(out, 5, 0, 255, u8::from(Refusal::BufferTooShort))
}

// Writes what the program prints for a record, and gives its number of bytes.
pub fn print(bytes: &[u8], out: &mut [u8]) -> usize
    requires { longest_record ≤ length out.old }
    ensures { (result ≡ length (printed bytes.now)) × (result ≤ longest_record)
        × (out.new ≡ laid (printed bytes.now) out.old) }
{
    if LONGEST_RECORD < bytes.len() {
        return put_refusal(out);
    }
    match replies_in(bytes, false, &mut out[..LONGEST_RECORD]) {
        Ok(n) => n,
        Err(_) => put_refusal(out),
    }
}
