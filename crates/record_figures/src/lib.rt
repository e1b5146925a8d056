// The figures of the auction that a record, or where `seated` says so a session, leaves behind, in lent numbers: what a C host gets of them
// (include/reference_engine.h). Nothing is held between calls: the record is the state.
#![tactic(auto)]

ghost use Rattle.record_replay.specs.record_auction.Leaves.{ledger_of};
ghost use Rattle.record_figures.specs.Told.{TellsState, TellsPreview, TellsCurve, TellsSettlement};

use record_replay::{host_numbers, record_auction};

pub mod closing_preview;
pub mod through_seats;

// Phase, both prices, the excess of the latest closing, the number of closings.
pub fn state(bytes: &[u8], figures: &mut [u64]) -> u64
    ensures { TellsState bytes.now figures.old figures.new result }
{
    let after = record_auction::after(bytes, false);
    let closings = after.closings as u64;
    let state = figure_writing::state(after.auction, after.excess, closings, figures);
    host_numbers::bare_number(state)
}

// What closing would answer now (document 02, 6).
pub fn preview(bytes: &[u8], seated: bool, figures: &mut [u64]) -> u64
    ensures { TellsPreview (ledger_of seated bytes.now) figures.old figures.new result }
{
    let open = record_auction::after(bytes, seated);
    let preview = closing_preview::previewed(open.auction, figures);
    host_numbers::bare_number(preview)
}

// The supply curve (document 02, 9): the number of its points.
pub fn curve(bytes: &[u8], seated: bool, points: &mut [u64]) -> u64
    ensures { TellsCurve (ledger_of seated bytes.now) points.old points.new result }
{
    let after = record_auction::after(bytes, seated);
    host_numbers::host_number(figure_writing::curve(after.auction, points))
}

// The settlement (document 01, Award), with its award records in lent bytes.
pub fn settlement(
    bytes: &[u8],
    seated: bool,
    limit: u64,
    figures: &mut [u64],
    awards: &mut [u8],
) -> u64
    ensures { TellsSettlement (ledger_of seated bytes.now) limit figures.old figures.new awards.old
        awards.new result }
{
    let closed = record_auction::after(bytes, seated);
    let settlement = figure_writing::settlement(closed.auction, limit, figures, awards);
    host_numbers::bare_number(settlement)
}
