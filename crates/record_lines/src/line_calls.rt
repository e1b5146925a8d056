// What a frame's call decides, by the clock and what the auction holds where the call reaches: one function for each group of calls that change the
// same parts of an auction.
ghost use Rattle.engine_moves.specs.moves.Entries.{entry_of, Held};
ghost use Rattle.std.specs.Prelude.{◌≡◌, ◌≤◌, ◌<◌, length, take};
ghost use Rattle.engine_auction.specs.Decided.{Enters};
ghost use Rattle.engine_held.specs.supply.ByProject.{place_of};
ghost use Rattle.engine_refusals.specs.Numbers.{number_in, after};
ghost use Rattle.record_lines.specs.line_calls.Decisions.{is_move, is_registration, is_clock, MoveFrame, RegistrationFrame, ClockFrame, developer_of, DecidesMove, DecidesRegistration, DecidesClock};

use engine_auction::{Auction, Newcomer};
use engine_checks::clock::Clock;
use engine_held::history::History;
use engine_held::supply;
use engine_moves::moves;
use engine_moves::moves::Entry;
use engine_refusals::Refusal;
use frame_reading::arguments;
use frame_reading::arguments::Registration;
use frame_reading::frames::Frame;

// 04 offer, 07 lodging, 09 cancellation: the calls that change a developer's history.
pub fn is_move(kind: usize) -> bool
    ensures { result ≡ is_move kind }
{
    kind == 4 || kind == 9 || kind == 7
}

// 02 and 08: the calls that add a developer.
pub fn is_registration(kind: usize) -> bool
    ensures { result ≡ is_registration kind }
{
    kind == 2 || kind == 8
}

// 01 set-up and 03 opening: the calls that change the clock alone.
pub fn is_clock(kind: usize) -> bool
    ensures { result ≡ is_clock kind }
{
    kind == 3 || kind == 1
}

// The place of the developer that a move names.
pub fn mover(frame: Frame) -> usize
    requires { MoveFrame frame }
    ensures { (result ≡ place_of (developer_of frame)) × (result < 32) }
{
    supply::place(arguments::byte(frame, 0))
}

// A move, by the clock and what the auction holds of its developer: the history that it leaves.
pub fn decide_move(frame: Frame, clock: &Clock, entry: Entry) -> Result<History, Refusal>
    requires { MoveFrame frame }
    ensures { DecidesMove frame (Held clock.now (entry_of entry.entry)) (number_in result) (after entry.entry.history.now result) }
{
    let numbered = Auction::is_number(arguments::byte(frame, 0));
    if frame.kind == 9 {
        return moves::cancelled(clock, numbered, entry);
    }
    let steps = arguments::steps_in(frame);
    let prices = &steps.prices[..steps.count];
    let levels = &steps.levels[..steps.count];
    if frame.kind == 4 {
        return moves::offered(clock, numbered, entry, prices, levels);
    }
    moves::lodged(clock, numbered, entry, prices, levels)
}

// A registration: the newcomer. 08 names its agent, 02 makes the agent the developer (document 02, 10).
pub fn decide_registration(frame: Frame, auction: &Auction) -> Result<Newcomer, Refusal>
    requires { RegistrationFrame frame }
    ensures { DecidesRegistration frame auction.now result }
{
    if frame.kind == 8 {
        let named = arguments::registration_in(frame, 4);
        let agent = arguments::byte(frame, 3);
        return entered(auction, named, agent);
    }
    let own = arguments::registration_in(frame, 3);
    entered(auction, own, own.developer)
}

fn entered(auction: &Auction, r: Registration, agent: u8) -> Result<Newcomer, Refusal>
    requires { (r.count ≤ 16) × (length r.levels ≡ 16) }
    ensures { Enters auction.now r.project r.developer r.kind agent r.study r.day (take r.count r.levels) result }
{
    engine_auction::entering(
        auction,
        r.project,
        r.developer,
        r.kind,
        agent,
        r.study,
        r.day,
        &r.levels[..r.count],
    )
}

// A set-up or an opening: the next clock.
pub fn decide_clock(frame: Frame, auction: &Auction) -> Result<Clock, Refusal>
    requires { ClockFrame frame }
    ensures { DecidesClock frame auction.now result }
{
    if frame.kind == 3 {
        let c = arguments::word(frame, 0);
        return engine_auction::opening_at(auction, c);
    }
    let ce = arguments::field(frame, 0);
    let d = arguments::field(frame, 1);
    let m1 = arguments::field(frame, 2);
    let m2 = arguments::field(frame, 3);
    let a = arguments::field(frame, 4);
    engine_auction::setting_up(&auction.clock, ce, d, m1, m2, a)
}
