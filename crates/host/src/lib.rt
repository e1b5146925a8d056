// The calls that a C host links: plain numbers and slices of them, no preconditions.
#![tactic(auto)]

ghost use Rattle.std.specs.Prelude.{◌≡◌, length};
ghost use Rattle.rules_demand.specs.Answer.{demand_answer};
ghost use Rattle.rules_auction.specs.Ledger.{settings_of, Offer, Lodge, Cancel, SetUp, Open, By, Close};
ghost use Rattle.rules_auction.specs.Rounds.{ledger};
ghost use Rattle.rules_replies.specs.Orders.{Asks, Settle};
ghost use Rattle.rules_replies.specs.Replies.{replies};
ghost use Rattle.rules_seats.specs.sessions.Sessions.{session_replies, session_record};
ghost use Rattle.rules_replies.specs.record_calls.Calls.{calls_in};
ghost use Rattle.record_replay.specs.Replayed.{hosted, over};
ghost use Rattle.record_replay.specs.record_forcing.Chosen.{told_in, chosen_in};
ghost use Rattle.frame_writing.specs.Encodes.{written_in};
ghost use Rattle.frame_writing.specs.each_call.Writes.{registration, registration_for};
ghost use Rattle.record_replay.specs.host_numbers.HostNumbers.{host_number, host_remainder};
ghost use Rattle.rules_sealed.specs.Sealed.{book_of, lent_awards};
ghost use Rattle.record_figures.specs.Told.{TellsState, TellsPreview, TellsCurve, TellsSettlement, TellsReading, TellsPreviewThrough, TellsCurveThrough};
ghost use Rattle.record_figures.specs.Told.{TellsSettlementThrough};
ghost use Rattle.host.specs.Forcing.{outcome_answer, host_forcing, TellsForcingThrough};
ghost use Rattle.host.specs.Sealing.{host_sealed};
ghost use Rattle.host.specs.Version.{engine_version};
ghost use Rattle.host.specs.Writing.{answer, HostWrites, HostWritesSeat};

use engine_refusals::Refusal;
use engine_sealed::sealed_auction;
use frame_writing::each_call;
use record_figures::through_seats;
use record_replay::{host_numbers, record_forcing, session_record};
use seats::seat_numbers;

// The engine's version, MAJOR.MINOR.PATCH, as REFERENCE_ENGINE_VERSION has it in the header.
const MAJOR: u64 = 0;

const MINOR: u64 = 42;

const PATCH: u64 = 0;

// The three in one number.
#[unsafe(no_mangle)]
pub extern "C" fn engine_version() -> u64
    ensures { result ≡ engine_version }
{
    1_000_000 * MAJOR + 1_000 * MINOR + PATCH
}

// Dem(p), or 2^64 - 1 where the settings or p are beyond their bounds.
#[unsafe(no_mangle)]
pub extern "C" fn demand(ce: u64, d: u64, m1: u64, m2: u64, p: u64) -> u64
    ensures { result ≡ host_number (demand_answer ce d m1 m2 p) }
{
    host_numbers::demand_number(ce, d, m1, m2, p)
}

// The remainder of Dem(p) (document 02, 4), or 2^64 - 1 likewise.
#[unsafe(no_mangle)]
pub extern "C" fn demand_remainder(ce: u64, d: u64, m1: u64, m2: u64, p: u64) -> u64
    ensures { result ≡ host_remainder (demand_answer ce d m1 m2 p) }
{
    host_numbers::remainder_number(ce, d, m1, m2, p)
}

// Replays a record: the bytes written, or 2^64 - 11 where the replies do not fit.
#[unsafe(no_mangle)]
pub extern "C" fn replay(src: &[u8], out: &mut [u8]) -> u64
    ensures value { result ≡ hosted (replies src.now) out.old }
    ensures out_after { out.new ≡ over (replies src.now) out.old }
{
    record_replay::replay(src, out)
}

// What C gets of who can force the price: the outcome, or 2^64 less the refusal's number.
fn host_outcome(told: Result<u32, Refusal>) -> u64
    ensures { result ≡ host_number (outcome_answer (told_in told)) }
{
    host_numbers::host_number(told.map(u64::from))
}

// Who can force the price (document 02, 11) in the auction that a record leaves behind: the outcome, and the best first move in the
// buffer's first byte.
#[unsafe(no_mangle)]
pub extern "C" fn who_can_force(
    src: &[u8],
    first: u64,
    second: u64,
    prices: &[u64],
    chosen: &mut [u8],
) -> u64
    ensures value { result ≡ host_forcing (ledger (calls_in src.now)) first second prices.now (length chosen.old) }
    ensures chosen_after { chosen.new ≡ chosen_in (ledger (calls_in src.now)) first second prices.now chosen.old }
{
    host_outcome(record_forcing::who_can_force(src, false, first, second, prices, chosen))
}

// ---- the figures of the auction that a record leaves behind

// Phase, opening and closing price, excess of the latest closing, number of closings.
#[unsafe(no_mangle)]
pub extern "C" fn record_state(src: &[u8], figures: &mut [u64]) -> u64
    ensures { TellsState src.now figures.old figures.new result }
{
    record_figures::state(src, figures)
}

// What closing would answer now (document 02, 6): excess, remainder, and whether the auction would then be closed.
#[unsafe(no_mangle)]
pub extern "C" fn record_preview(src: &[u8], figures: &mut [u64]) -> u64
    ensures { TellsPreview (ledger (calls_in src.now)) figures.old figures.new result }
{
    record_figures::preview(src, false, figures)
}

// The supply curve (document 02, 9): the number of its points, and price, supply before and supply after of each.
#[unsafe(no_mangle)]
pub extern "C" fn record_curve(src: &[u8], points: &mut [u64]) -> u64
    ensures { TellsCurve (ledger (calls_in src.now)) points.old points.new result }
{
    record_figures::curve(src, false, points)
}

// The settlement, and the award records in the lent bytes.
#[unsafe(no_mangle)]
pub extern "C" fn record_settlement(
    src: &[u8],
    limit: u64,
    figures: &mut [u64],
    awards: &mut [u8],
) -> u64
    ensures { TellsSettlement (ledger (calls_in src.now)) limit figures.old figures.new awards.old
        awards.new result }
{
    record_figures::settlement(src, false, limit, figures, awards)
}

// ---- a session: calls through seats (document 02, 14; docs/FORMAT.md, sessions)

// The four digits that name a seat.
#[unsafe(no_mangle)]
pub extern "C" fn write_seat(kind: u64, number: u64, bytes: &mut [u8]) -> u64
    ensures { HostWritesSeat kind number bytes.old bytes.new result }
{
    host_numbers::host_number(seat_numbers::write_seat(kind, number, bytes).and(Ok(4)))
}

// Replays a session: the bytes written, or 2^64 - 11 where the replies do not fit.
#[unsafe(no_mangle)]
pub extern "C" fn session_replay(src: &[u8], out: &mut [u8]) -> u64
    ensures value { result ≡ hosted (session_replies src.now) out.old }
    ensures out_after { out.new ≡ over (session_replies src.now) out.old }
{
    record_replay::session_replay(src, out)
}

// What a seat reads behind a session: how many numbers.
#[unsafe(no_mangle)]
pub extern "C" fn session_reading(src: &[u8], seat: u64, number: u64, reading: &mut [u64]) -> u64
    ensures { TellsReading src.now seat number reading.old reading.new result }
{
    through_seats::reading(src, seat, number, reading)
}

#[unsafe(no_mangle)]
pub extern "C" fn session_preview(src: &[u8], seat: u64, number: u64, figures: &mut [u64]) -> u64
    ensures { TellsPreviewThrough src.now seat number figures.old figures.new result }
{
    through_seats::preview(src, seat, number, figures)
}

#[unsafe(no_mangle)]
pub extern "C" fn session_curve(src: &[u8], seat: u64, number: u64, points: &mut [u64]) -> u64
    ensures { TellsCurveThrough src.now seat number points.old points.new result }
{
    through_seats::curve(src, seat, number, points)
}

#[unsafe(no_mangle)]
pub extern "C" fn session_settlement(
    src: &[u8],
    seat: u64,
    number: u64,
    limit: u64,
    figures: &mut [u64],
    awards: &mut [u8],
) -> u64
    ensures { TellsSettlementThrough src.now seat number limit figures.old figures.new
        awards.old awards.new result }
{
    through_seats::settlement(src, seat, number, limit, figures, awards)
}

#[unsafe(no_mangle)]
pub extern "C" fn session_forcing(
    src: &[u8],
    seat: u64,
    number: u64,
    first: u64,
    second: u64,
    prices: &[u64],
    chosen: &mut [u8],
) -> u64
    ensures { TellsForcingThrough src.now seat number first second prices.now chosen.old chosen.new result }
{
    if !seat_numbers::conducts_by(seat, number) {
        return host_numbers::host_number(Err(Refusal::NoRight));
    }
    host_outcome(record_forcing::who_can_force(src, true, first, second, prices, chosen))
}

// The plain record of a session: the frames of all that its seats had the right to ask.
#[unsafe(no_mangle)]
pub extern "C" fn session_record(src: &[u8], out: &mut [u8]) -> u64
    ensures value { result ≡ hosted (session_record src.now) out.old }
    ensures out_after { out.new ≡ over (session_record src.now) out.old }
{
    session_record::session_record(src, out)
}

// The sealed auction for long builds (document 02, 13): what is left, and the award of each offer from the buffer's start.
#[unsafe(no_mangle)]
pub extern "C" fn sealed_auction(
    ceiling: u64,
    demand: u64,
    prices: &[u64],
    quantities: &[u64],
    minimums: &[u64],
    ages: &[u64],
    awards: &mut [u64],
) -> u64
    ensures value { result ≡ host_sealed ceiling demand (book_of prices.now quantities.now minimums.now ages.now) (length awards.old) }
    ensures awards_after { awards.new ≡ lent_awards ceiling demand (book_of prices.now quantities.now minimums.now ages.now) awards.old }
{
    host_numbers::host_number(sealed_auction::sealed_auction(
        ceiling, demand, prices, quantities, minimums, ages, awards,
    ))
}

// ---- frames written (document 02, 2)

// What C gets of a writing: the bytes written, or 2^64 less the refusal's number.
fn host_bytes(written: Result<usize, Refusal>) -> u64
    ensures { result ≡ host_number (answer (written_in written)) }
{
    host_numbers::host_number(written.map(|bytes| bytes as u64))
}

// 01 set-up.
#[unsafe(no_mangle)]
pub extern "C" fn write_set_up(ce: u64, d: u64, m1: u64, m2: u64, a: u64, frame: &mut [u8]) -> u64
    ensures { HostWrites (Asks (SetUp (settings_of ce d m1 m2 a))) frame.old frame.new result }
{
    host_bytes(each_call::write_set_up(ce, d, m1, m2, a, frame))
}

// 02 registration.
#[unsafe(no_mangle)]
pub extern "C" fn write_registration(
    project: u64,
    developer: u64,
    kind: u64,
    study: u64,
    day: u64,
    levels: &[u64],
    frame: &mut [u8],
) -> u64
    ensures { HostWrites (registration project developer kind study day levels.now) frame.old frame.new result }
{
    host_bytes(each_call::write_registration(project, developer, kind, study, day, levels, frame))
}

// 03 open.
#[unsafe(no_mangle)]
pub extern "C" fn write_opening(c: u64, frame: &mut [u8]) -> u64
    ensures { HostWrites (Asks (Open c)) frame.old frame.new result }
{
    host_bytes(each_call::write_opening(c, frame))
}

// 04 offer.
#[unsafe(no_mangle)]
pub extern "C" fn write_offer(
    developer: u64,
    prices: &[u64],
    levels: &[u64],
    frame: &mut [u8],
) -> u64
    ensures { HostWrites (Asks (By developer (Offer prices.now levels.now))) frame.old frame.new result }
{
    host_bytes(each_call::write_offer(developer, prices, levels, frame))
}

// 05 close.
#[unsafe(no_mangle)]
pub extern "C" fn write_closing(frame: &mut [u8]) -> u64
    ensures { HostWrites (Asks Close) frame.old frame.new result }
{
    host_bytes(each_call::write_closing(frame))
}

// 06 settle.
#[unsafe(no_mangle)]
pub extern "C" fn write_settling(limit: u64, frame: &mut [u8]) -> u64
    ensures { HostWrites (Settle limit) frame.old frame.new result }
{
    host_bytes(each_call::write_settling(limit, frame))
}

// 07 lodging (document 02, 5).
#[unsafe(no_mangle)]
pub extern "C" fn write_lodging(
    developer: u64,
    prices: &[u64],
    levels: &[u64],
    frame: &mut [u8],
) -> u64
    ensures { HostWrites (Asks (By developer (Lodge prices.now levels.now))) frame.old frame.new result }
{
    host_bytes(each_call::write_lodging(developer, prices, levels, frame))
}

// 08 registration with its agent (document 02, 10).
#[unsafe(no_mangle)]
pub extern "C" fn write_registration_for(
    project: u64,
    developer: u64,
    kind: u64,
    agent: u64,
    study: u64,
    day: u64,
    levels: &[u64],
    frame: &mut [u8],
) -> u64
    ensures { HostWrites (registration_for project developer kind agent study day levels.now) frame.old frame.new result }
{
    host_bytes(each_call::write_registration_for(
        project, developer, kind, agent, study, day, levels, frame,
    ))
}

// 09 cancellation (document 02, 7).
#[unsafe(no_mangle)]
pub extern "C" fn write_cancellation(developer: u64, frame: &mut [u8]) -> u64
    ensures { HostWrites (Asks (By developer Cancel)) frame.old frame.new result }
{
    host_bytes(each_call::write_cancellation(developer, frame))
}
