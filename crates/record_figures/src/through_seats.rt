// What a seat reads and looks at behind a session (document 02, 14), by the kind of seat and the number that a host passes. Without the right a call is
// refused by 20 before the session is read.
ghost use Rattle.record_figures.specs.Told.{TellsReading, TellsPreviewThrough, TellsCurveThrough, TellsSettlementThrough};

use engine_refusals::Refusal;
use record_replay::{host_numbers, record_auction};
use seats::seat_numbers;

// What the seat reads: how many numbers.
pub fn reading(bytes: &[u8], kind: u64, number: u64, figures: &mut [u64]) -> u64
    ensures { TellsReading bytes.now kind number figures.old figures.new result }
{
    if !seat_numbers::names_seat(kind, number) {
        return host_numbers::host_number(Err(Refusal::NoRight));
    }
    let seat = seat_numbers::seat_by(kind, number);
    let after = record_auction::after(bytes, true);
    host_numbers::host_number(figure_writing::reading(after.auction, after.excess, seat, figures))
}

pub fn preview(bytes: &[u8], kind: u64, number: u64, figures: &mut [u64]) -> u64
    ensures { TellsPreviewThrough bytes.now kind number figures.old figures.new result }
{
    if !seat_numbers::conducts_by(kind, number) {
        return host_numbers::host_number(Err(Refusal::NoRight));
    }
    crate::preview(bytes, true, figures)
}

pub fn curve(bytes: &[u8], kind: u64, number: u64, points: &mut [u64]) -> u64
    ensures { TellsCurveThrough bytes.now kind number points.old points.new result }
{
    if !seat_numbers::conducts_by(kind, number) {
        return host_numbers::host_number(Err(Refusal::NoRight));
    }
    crate::curve(bytes, true, points)
}

pub fn settlement(
    bytes: &[u8],
    kind: u64,
    number: u64,
    limit: u64,
    figures: &mut [u64],
    awards: &mut [u8],
) -> u64
    ensures { TellsSettlementThrough bytes.now kind number limit figures.old figures.new awards.old
        awards.new result }
{
    if !seat_numbers::settles_by(kind, number) {
        return host_numbers::host_number(Err(Refusal::NoRight));
    }
    crate::settlement(bytes, true, limit, figures, awards)
}
