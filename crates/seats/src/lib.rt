// The seats of the auction hall, and who may make which call (document 02, 14); seats by their numbers, and in the lines of a session.
#![tactic(auto)]

ghost use Rattle.std.specs.Prelude.{◌≡◌};
ghost use Rattle.rules_seats.specs.Seats.{may_conduct, may_offer_for, may_settle};
ghost use Rattle.seats.specs.Rights.{seat_in};

pub mod seat_numbers;
pub mod session_lines;

#[derive(Clone, Copy)]
pub enum Seat {
    Auctioneer,
    Auditor,
    // The developer of this number, whichever it is.
    Developer(u8),
}

// Whether the seat makes the auctioneer's calls: every one except offers and cancellations.
pub fn conducts(seat: Seat) -> bool
    ensures { result ≡ may_conduct (seat_in seat) }
{
    matches!(seat, Seat::Auctioneer)
}

// Whether the seat settles.
pub fn settles(seat: Seat) -> bool
    ensures { result ≡ may_settle (seat_in seat) }
{
    matches!(seat, Seat::Auctioneer | Seat::Auditor)
}

// Whether the seat offers and cancels for this developer.
pub fn offers_for(seat: Seat, developer: u64) -> bool
    ensures { result ≡ may_offer_for (seat_in seat) developer }
{
    match seat {
        Seat::Auctioneer | Seat::Auditor => false,
        Seat::Developer(n) => developer == u64::from(n),
    }
}
