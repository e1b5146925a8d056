// A line of a session as a loop over its lines reads it (docs/FORMAT.md, sessions): four digits that name a seat, then a frame.
ghost use Rattle.std.specs.Prelude.{◌≡◌, ◌&&◌, [], ◌∷◌};
ghost use Rattle.rules_format.specs.SessionLines.{seat_kind, seat_number, names_seat};
ghost use Rattle.rules_seats.specs.sessions.Sessions.{seat_by};
ghost use Rattle.rules_seats.specs.sessions.SeatedLines.{barred_by_kind};
ghost use Rattle.seats.specs.Rights.{seat_in};
ghost use Rattle.seats.specs.session_lines.FrameParts.{frame_behind};

use crate::seat_numbers::SEAT_WIDTH;
use crate::{Seat, seat_numbers};
use frame_bytes::{field_reading, field_table};

// Whether the line begins with four digits that name a seat.
#[tactic(auto, unfolding(rules_format::specs::SessionLines::names_seat, rules_format::specs::SessionLines::seat_kind, rules_format::specs::SessionLines::seat_number))]
fn begins_with_seat(line: &[u8]) -> bool
    ensures { result ≡ names_seat line.now }
{
    SEAT_WIDTH <= line.len()
        && field_reading::all_hex(&line[..SEAT_WIDTH])
        && seat_numbers::names_seat(
            field_reading::field(line, 0, 2),
            field_reading::field(line, 2, 2),
        )
}

// The frame behind the seat; nothing where the line names none, and nothing is malformed.
pub fn frame_part(line: &[u8]) -> &[u8]
    ensures { result.now ≡ frame_behind line.now }
{
    if begins_with_seat(line) {
        &line[SEAT_WIDTH..]
    } else {
        &line[..0]
    }
}

// Whether the seat has no right to a frame of this kind, whose first field is this: offers and cancellations are for the developer that it names.
#[tactic(auto, using(crate::proofs::session_lines::Barring::row_tells), unfolding(rules_seats::specs::sessions::SeatedLines::barred_by_kind))]
fn bars(seat: Seat, kind: usize, first: u64) -> bool
    ensures { result ≡ barred_by_kind (seat_in seat) kind (first ∷ []) }
{
    match kind {
        4 | 9 => !crate::offers_for(seat, first),
        6 => !crate::settles(seat),
        _ => !crate::conducts(seat) && field_table::row_of(kind).is_some(),
    }
}

// Whether the seat that the line names has no right to its frame, which is of this kind and has this first field.
pub fn is_barred(line: &[u8], kind: usize, first: u64) -> bool
    ensures { result ≡ names_seat line.now && barred_by_kind (seat_by (seat_kind line.now) (seat_number line.now)) kind (first ∷ []) }
{
    if !begins_with_seat(line) {
        return false;
    }
    let number = field_reading::field(line, 2, 2);
    let seat = seat_numbers::seat_by(field_reading::field(line, 0, 2), number);
    bars(seat, kind, first)
}
