// The replies to the lines of a record or of a session, from an auction on (document 01, Frames), in one loop. It keeps the auction as its one local: a line
// is read and decided from the clock and what the auction holds where the call reaches, and only what changes is stored.
#![tactic(auto)]

ghost use Rattle.std.specs.Prelude.{◌≡◌, ◌<◌, []};
ghost use Rattle.rules_replies.specs.Replies.{answer_line};
ghost use Rattle.engine_refusals.specs.Numbers.{number_of};
ghost use Rattle.record_replies.specs.Runs.{Runs};
ghost use Rattle.reply_writing.specs.Placed.{most, Puts};

use engine_auction::Auction;
use engine_refusals::Refusal;
use engine_settling::Settlement;
use frame_bytes::lines;
use frame_reading::{arguments, frames};
use record_lines::{line_calls, line_seats};

// The auction behind the lines; the place behind their replies, above the limit where they have more; the excess of the latest closing that was accepted, 0
// before there is any, and how many were; and the settlement, if one was accepted, with the bytes of its award records.
#[derive(Clone, Copy)]
pub struct Ran {
    pub auction: Auction,
    pub written: usize,
    pub excess: i64,
    pub closings: usize,
    pub settled: Option<Settlement>,
    pub awards: [u8; 192],
}

// The reply to a refused call of this kind: the place behind it, or one above the limit.
fn refusal_at(out: &mut [u8], limit: usize, at: usize, kind: usize, refusal: Refusal) -> usize
    requires { limit < most }
    ensures { Puts (answer_line kind (number_of refusal) []) limit at out.old out.new result }
{
    reply_writing::plain_at(out, limit, at, kind, u8::from(refusal))
}

// The replies to the lines from the place `from` on, of a record or, where `seated` says so, of a session, written from the place `end` of `out` on: each
// behind the others, where all of them so far end within the limit and lie within `out`.
pub fn run(
    start: Auction,
    bytes: &[u8],
    seated: bool,
    from: usize,
    limit: usize,
    end: usize,
    out: &mut [u8],
) -> Ran
    requires { limit < most }
    ensures { Runs start bytes.now seated from limit end out.old out.new result }
{
    let mut auction = start;
    let mut excess: i64 = 0;
    let mut closings: usize = 0;
    // a closed auction never changes again: its settlement, once found
    let mut settled: Option<Settlement> = None;
    let mut awards = [0u8; 192];
    let mut read: usize = from;
    let mut written: usize = end;
    while read < bytes.len() {
        let line = lines::next_line(bytes, read);
        let frame = frames::decode(line_seats::frame_part(line, seated));
        read = read + line.len() + 1;
        let kind = frame.kind;
        if line_seats::is_barred(line, seated, frame) {
            written = refusal_at(out, limit, written, kind, Refusal::NoRight);
            continue;
        }
        if line_calls::is_move(kind) {
            let place = line_calls::mover(frame);
            let entry = auction.entry(place);
            let history = match line_calls::decide_move(frame, &auction.clock, entry) {
                Ok(history) => history,
                Err(refused) => {
                    written = refusal_at(out, limit, written, kind, refused);
                    continue;
                }
            };
            auction.histories[place] = history;
            written = reply_writing::plain_at(out, limit, written, kind, 0);
            continue;
        }
        if line_calls::is_registration(kind) {
            let newcomer = match line_calls::decide_registration(frame, &auction) {
                Ok(newcomer) => newcomer,
                Err(refusal) => {
                    written = refusal_at(out, limit, written, kind, refusal);
                    continue;
                }
            };
            let place = newcomer.place;
            let declared = newcomer.declared;
            auction.projects[place] = newcomer.project;
            auction.kinds[place] = newcomer.kind;
            auction.agents[place] = newcomer.agent;
            auction.studies[place] = newcomer.study;
            auction.days[place] = newcomer.day;
            auction.quantities[place] = newcomer.quantity;
            auction.declared[place] = declared;
            written = reply_writing::plain_at(out, limit, written, kind, 0);
            continue;
        }
        if line_calls::is_clock(kind) {
            let turned = line_calls::decide_clock(frame, &auction);
            auction.clock = turned.unwrap_or(auction.clock);
            let number = engine_refusals::answer_number(&turned);
            written = reply_writing::plain_at(out, limit, written, kind, number);
            continue;
        }
        if kind == 5 {
            if !auction.clock.phase.in_round() {
                written = refusal_at(out, limit, written, 5, Refusal::NotInThisPhase);
                continue;
            }
            let rounded = engine_auction::closing_round(&auction);
            let quantities = rounded.quantities;
            let histories = rounded.histories;
            let curve = rounded.curve;
            auction.clock.phase = rounded.phase;
            auction.quantities = quantities;
            auction.histories = histories;
            auction.curve = curve;
            excess = rounded.excess;
            closings += 1;
            let reply = reply_values::closing_reply(0, rounded.excess, rounded.remainder);
            written = reply_writing::reply_at(out, limit, written, reply);
            continue;
        }
        if kind == 6 {
            if limit < written {
                continue;
            }
            if !auction.clock.phase.is_closed() {
                written = refusal_at(out, limit, written, 6, Refusal::NotInThisPhase);
                continue;
            }
            let asked = arguments::word(frame, 0);
            if let Some(settlement) = settled {
                if let Err(refusal) = engine_settling::check_again(settlement, asked) {
                    written = refusal_at(out, limit, written, 6, refusal);
                    continue;
                }
                let again = reply_values::settling_reply(Ok(settlement), &awards);
                written = reply_writing::reply_at(out, limit, written, again);
                continue;
            }
            let answer = engine_settling::settle(auction, asked, &mut awards);
            settled = answer.ok();
            let reply = reply_values::settling_reply(answer, &awards);
            written = reply_writing::reply_at(out, limit, written, reply);
            continue;
        }
        written = refusal_at(out, limit, written, 255, Refusal::MalformedLine);
    }
    Ran {
        auction,
        written,
        excess,
        closings,
        settled,
        awards,
    }
}
