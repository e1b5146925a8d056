// The calls through a seat that leave the hall as it is (document 02, 14): settling, and what a seat looks at. Without the right a call is refused
// by 20; otherwise it is the auction's own (specs/hall_readings/Looks.antt).
ghost use Rattle.seats.specs.Rights.{seat_in};
ghost use Rattle.engine_looks.specs.readings.Readings.{preview_in};
ghost use Rattle.engine_looks.specs.forcing.Forces.{forced_in};
ghost use Rattle.engine_settling.specs.Settles.{settled_in};
ghost use Rattle.hall.specs.hall_readings.Looks.{SettlesThrough, PreviewsThrough, ReadsCurveThrough, ForcesThrough, ReadsThrough, point_in};

use crate::seat_readings::Reading;
use crate::{Hall, seat_readings};
use engine_looks::forcing::Forcing;
use engine_looks::readings::{Preview, SupplyPoint};
use engine_looks::{forcing, readings};
use engine_refusals::Refusal;
use engine_settling::Settlement;
use seats::Seat;

pub fn settle(hall: Hall, seat: Seat, limit: u32, awards: &mut [u8]) -> Result<Settlement, Refusal>
    ensures { SettlesThrough (seat_in seat) hall limit awards.old awards.new (settled_in result) }
{
    if !seats::settles(seat) {
        return Err(Refusal::NoRight);
    }
    engine_settling::settle(hall.auction, limit, awards)
}

pub fn preview_closing(hall: Hall, seat: Seat) -> Result<Preview, Refusal>
    ensures { PreviewsThrough (seat_in seat) hall (preview_in result) }
{
    if !seats::conducts(seat) {
        return Err(Refusal::NoRight);
    }
    readings::preview_closing(hall.auction)
}

pub fn supply_point(hall: Hall, seat: Seat, place: usize) -> Result<SupplyPoint, Refusal>
    ensures { ReadsCurveThrough (seat_in seat) hall place (point_in result) }
{
    if !seats::conducts(seat) {
        return Err(Refusal::NoRight);
    }
    Ok(readings::supply_point(hall.auction, place))
}

pub fn who_can_force(
    hall: Hall,
    seat: Seat,
    first: u64,
    second: u64,
    prices: &[u64],
) -> Result<Forcing, Refusal>
    ensures { ForcesThrough (seat_in seat) hall first second prices.now (forced_in result) }
{
    if !seats::conducts(seat) {
        return Err(Refusal::NoRight);
    }
    forcing::who_can_force(hall.auction, first, second, prices)
}

// What the seat reads: every seat may.
pub fn read(hall: Hall, seat: Seat) -> Reading
    ensures { ReadsThrough (seat_in seat) hall result }
{
    seat_readings::read_from(hall.auction, hall.excess, seat)
}
