// The developers' courses: their quantities and histories, developer n at place n - 1, through the closing of a round.
ghost use Rattle.std.specs.Prelude.{◌≡◌};
ghost use Rattle.engine_moves.specs.closing_entries.Courses.{moves, OfferApplied, OffersApplied};

use engine_checks::closing_checks;
use engine_held::history::History;
use engine_held::withdrawals;

// All developers', and whether any of them was not passed over.
#[derive(Clone, Copy)]
pub struct Courses {
    pub moved: bool,
    pub quantities: [u32; 32],
    pub histories: [History; 32],
}

// One developer's.
#[derive(Clone, Copy)]
pub struct Course {
    pub quantity: u32,
    pub history: History,
}

// Whether a closing can move a developer: an offer of it stands, steps of it are lodged, or it withdraws for want of an offer.
#[tactic(auto, unfolding(crate::specs::closing_entries::Courses::moves))]
fn is_moved(offered: usize, lodged: usize, kind: u8, quantity: u32) -> bool
    ensures { result ≡ moves offered lodged kind quantity }
{
    0 < offered || 0 < lodged || closing_checks::withdraws(kind, quantity)
}

// One developer's offer applied, and the lodged steps that C reaches; one of kind 2 without an offer and above 0 withdraws at the opening price.
fn with_offer_applied(
    kind: u8,
    quantity: u32,
    history: History,
    opening: u32,
    closing: u32,
) -> Course
    ensures { OfferApplied kind quantity history opening closing result }
{
    let missing = closing_checks::withdraws(kind, quantity);
    let reached = withdrawals::reach(history, closing);
    let applied = reached.close(missing, opening);
    Course {
        quantity: withdrawals::last_level(applied, quantity),
        history: applied,
    }
}

// All developers' offers applied, and the lodged steps that C reaches: those that a closing cannot move are passed over.
pub fn with_offers_applied(
    kinds: [u8; 32],
    quantities: [u32; 32],
    histories: [History; 32],
    opening: u32,
    closing: u32,
) -> Courses
    ensures { OffersApplied kinds quantities histories opening closing result }
{
    let mut next = Courses {
        moved: false,
        quantities,
        histories,
    };
    for i in 0..32 {
        let kind = kinds[i];
        let quantity = next.quantities[i];
        let history = next.histories[i];
        if is_moved(history.offered, history.lodged, kind, quantity) {
            let course = with_offer_applied(kind, quantity, history, opening, closing);
            next.moved = true;
            next.quantities[i] = course.quantity;
            next.histories[i] = course.history;
        }
    }
    next
}
