// Seats by a kind and a number, as a line of a session and a host name them (docs/FORMAT.md, sessions): 0 the auctioneer, 1 the auditor, 2 the developer
// of this number.
ghost use Rattle.std.specs.Prelude.{◌≡◌, length};
ghost use Rattle.rules_format.specs.Written.{writing_refusal, lent_frame};
ghost use Rattle.rules_format.specs.SessionLines.{is_seat, seat_text, writable_seat};
ghost use Rattle.rules_seats.specs.Seats.{may_conduct, may_settle};
ghost use Rattle.rules_seats.specs.sessions.SessionFigures.{seat_may};
ghost use Rattle.engine_refusals.specs.Numbers.{number_in};
ghost use Rattle.seats.specs.Rights.{seat_in};
ghost use Rattle.seats.specs.seat_numbers.ByteSeats.{byte_seat};

use crate::Seat;
use engine_refusals::Refusal;
use frame_bytes::field_writing;

// The digits of a seat: two of its kind, two of its number.
pub const SEAT_WIDTH: usize = 4;

// The most that a developer's number is in two digits.
const LARGEST_NUMBER: u64 = 255;

// Whether the kind and the number name a seat.
#[tactic(auto, unfolding(rules_format::specs::SessionLines::is_seat))]
pub fn names_seat(kind: u64, number: u64) -> bool
    ensures { result ≡ is_seat kind number }
{
    if kind <= 1 { number == 0 } else { kind == 2 }
}

// The seat that they name. A number of more than two digits is taken for the largest of two: no developer has either.
#[tactic(auto, unfolding(crate::specs::seat_numbers::ByteSeats::byte_seat))]
pub fn seat_by(kind: u64, number: u64) -> Seat
    ensures { seat_in result ≡ byte_seat kind number }
{
    match kind {
        0 => Seat::Auctioneer,
        1 => Seat::Auditor,
        _ => Seat::Developer(number.min(LARGEST_NUMBER) as u8),
    }
}

// Whether they name a seat, and it makes the auctioneer's calls.
#[tactic(auto, using(crate::specs::seat_numbers::ByteSeatLaws::held_conducts), unfolding(rules_seats::specs::sessions::SessionFigures::seat_may))]
pub fn conducts_by(kind: u64, number: u64) -> bool
    ensures { result ≡ seat_may may_conduct kind number }
{
    names_seat(kind, number) && crate::conducts(seat_by(kind, number))
}

// Whether they name a seat, and it settles.
#[tactic(auto, using(crate::specs::seat_numbers::ByteSeatLaws::held_settles), unfolding(rules_seats::specs::sessions::SessionFigures::seat_may))]
pub fn settles_by(kind: u64, number: u64) -> bool
    ensures { result ≡ seat_may may_settle kind number }
{
    names_seat(kind, number) && crate::settles(seat_by(kind, number))
}

// Whether they name a seat whose number has two digits.
#[tactic(auto, using(crate::proofs::seat_numbers::SeatDigits::long_number, crate::proofs::seat_numbers::SeatDigits::by_seat))]
fn is_writable(kind: u64, number: u64) -> bool
    ensures { result ≡ writable_seat kind number }
{
    number <= LARGEST_NUMBER && names_seat(kind, number)
}

// Writes the digits of a seat at the start of a buffer. Checks: 14, that they name a seat of two digits each; 13, that the buffer has room for them.
// The bytes behind them stay, and a refusal leaves every byte.
pub fn write_seat(kind: u64, number: u64, out: &mut [u8]) -> Result<(), Refusal>
    ensures value { number_in result ≡ writing_refusal (writable_seat kind number) (seat_text kind number) (length out.old) }
    ensures out_after { out.new ≡ lent_frame (writable_seat kind number) (seat_text kind number) out.old }
{
    if !is_writable(kind, number) {
        return Err(Refusal::NotWritable);
    }
    if out.len() < SEAT_WIDTH {
        return Err(Refusal::FrameBufferTooShort);
    }
    field_writing::put_hex(out, kind, 2);
    field_writing::put_hex(&mut out[2..], number, 2);
    Ok(())
}
