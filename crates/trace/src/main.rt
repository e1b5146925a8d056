// Replays the record on standard input, at most 65,536 bytes, and writes each reply, below it what it says in words and decimal numbers, before a
// closing's what a preview says, and below an accepted one the supply curve; FF0B alone where the record is longer. What it writes is collected in a
// buffer, which is written out when it may have no room for more.
#![tactic(auto)]

ghost use Rattle.std.specs.Prelude.{◌≡◌, ◌+◌, ◌≤◌, length, IfOk};
ghost use Rattle.std.specs.Io.{ReadsAtMost};

use engine_auction::Auction;
use engine_looks::readings;
use engine_looks::readings::Preview;
use engine_refusals::Refusal;
use frame_bytes::lines;
use frame_reading::frames;
use record_replies::Ran;
use std::io;

// The most bytes of a record (document 01, Frames).
const LONGEST_RECORD: usize = 65_536;

// Enough for a line's reply with what stands before it, 100 bytes, and below it, 3,000; and for a point of the curve.
const ROOM: usize = 4_096;

// The bytes of the longest reply: a settling's with 32 awards.
const LONGEST_REPLY: usize = 463;

// The bytes of a reply that adds nothing, as every refused one.
const BARE_REPLY: usize = 5;

// Where there is room for more: behind what is collected, or at the start once that is written out.
fn with_room(rt: &impl Print, text: &[u8], end: usize) -> io::Result<usize>
    requires { (end ≤ length text.now) × (4096 ≤ length text.now) }
    ensures { IfOk result (λ at. at + 4096 ≤ length text.now) }
{
    if ROOM <= text.len() - end {
        return Ok(end);
    }
    rt.write_all(&text[..end])?;
    Ok(0)
}

// What a closing would answer; only before one is it looked at.
fn look(auction: Auction, kind: usize) -> Result<Preview, Refusal> {
    if kind != 5 {
        return Ok(trace_text::NO_PREVIEW);
    }
    readings::preview_closing(auction)
}

// How many points of the supply curve stand below a reply: all of them, below an accepted closing.
fn points_shown(auction: Auction, kind: usize, accepted: bool) -> usize {
    if kind != 5 || !accepted {
        return 0;
    }
    readings::supply_point(auction, 0).entries
}

// Puts the first points of the supply curve (document 02, 9), one a line, and gives the place behind them.
fn put_curve(
    rt: &impl Print,
    text: &mut [u8],
    from: usize,
    auction: Auction,
    points: usize,
) -> io::Result<usize>
    requires { (from ≤ length text.old) × (4096 ≤ length text.old) }
    ensures { IfOk result (λ end. end ≤ length text.old) }
{
    let mut end = from;
    for place in 0..points {
        let point = readings::supply_point(auction, place);
        let at = with_room(rt, text, end)?;
        end = trace_text::put_point(text, at, point.price, point.before, point.after);
    }
    Ok(end)
}

// Puts the reply to a line, which stands with its 0A.
fn put_reply(text: &mut [u8], at: usize, auction: Auction, line: &[u8]) -> Ran
    requires { at ≤ length text.old }
{
    record_replies::run(auction, line, false, 0, LONGEST_REPLY, 0, &mut text[at..])
}

// Puts the trace of a record's lines, and gives the place behind what is not yet written out.
fn put_lines(rt: &impl Print, bytes: &[u8], text: &mut [u8]) -> io::Result<usize>
    requires { 4096 ≤ length text.old }
    ensures { ReadsAtMost result text.new }
{
    let mut auction = Auction::new();
    let mut end: usize = 0;
    let mut at: usize = 0;
    while at < bytes.len() {
        let line = lines::next_line(bytes, at);
        let next = (at + line.len() + 1).min(bytes.len());
        let kind = frames::decode(line).kind;
        let preview = look(auction, kind);
        let start = with_room(rt, text, end)?;
        let reply = trace_text::put_before(text, start, kind, preview);
        let ran = put_reply(text, reply, auction, &bytes[at..next]);
        let n = ran.written.min(LONGEST_REPLY);
        let accepted = BARE_REPLY < n;
        let below = trace_text::put_below(
            text,
            reply + n,
            kind,
            accepted,
            preview,
            ran.settled,
            ran.awards,
        );
        auction = ran.auction;
        end = put_curve(
            rt,
            text,
            below,
            auction,
            points_shown(auction, kind, accepted),
        )?;
        at = next;
    }
    Ok(end)
}

fn main(rt: HostRuntime) -> io::Result<()> {
    // One byte more than a record may have, so that a longer one is seen.
    let mut record = [0; LONGEST_RECORD + 1];
    let n = program_input::read_full(&mut rt.stdin(), &mut record)?;
    if LONGEST_RECORD < n {
        return rt.write_all(b"FF0B\n");
    }
    let mut text = [0; 65_536];
    let end = put_lines(&rt, &record[..n], &mut text)?;
    rt.write_all(&text[..end])
}
