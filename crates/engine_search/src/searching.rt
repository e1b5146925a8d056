// The search of document 02, request 3: depth first through the rows of a table, in the order of the search. Choices are counted, covering ones
// and those not set aside, and the best covering one is found, by its total and its place among all choices.
ghost use Rattle.std.specs.Prelude.{◌≡◌};
ghost use Rattle.rules_choices.specs.EachChoice.{each_choice};
ghost use Rattle.engine_table.specs.table.Rows.{rows_in};
ghost use Rattle.engine_table.specs.table.Places.{ValidTable};
ghost use Rattle.engine_search.specs.rows_behind.Behind.{Orders};
ghost use Rattle.engine_search.specs.searching.Going.{offered, left, Passed, Ready};
ghost use Rattle.engine_search.specs.searching.Searches.{Searchable, Searches};

use crate::rows_behind::Row;
use crate::tally::Tally;
use crate::{ordering, rows_behind, tally};

// A place of the search: that of a row in the order, that of its level in the table, the total of the rows before, and the place among all choices of
// the levels so far with the first levels of all rows behind.
#[derive(Clone, Copy)]
struct Place {
    row: usize,
    at: usize,
    base: u64,
    index: u64,
}

// Depth first through the choices that are left: the row at the place from its level there on, and the rows behind it. Where the rows behind do not
// make the level cover even at their highs, no choice with it does; where they make it cover at their lows, all do, and of these only the lows can be
// kept, since the others are above them. Only between the two are they gone into, never behind the last row, where both sums are 0.
fn explore(levels: &[u32; 288], rows: &[Row; 32], demand: u64, place: Place, found: Tally) -> Tally
    requires { Ready levels.now rows.now place found }
    ensures { result ≡ each_choice (offered demand) (left levels.now rows.now place.row place.at) place.base
        place.index found }
{
    let row = &rows[place.row];
    let total = place.base + u64::from(levels[place.at]);
    let low = total + row.lows;
    let high = total + row.highs;
    // assigned in each branch: as the value of an if it would be copied, which slows long searches by a quarter
    let mut passed = found;
    if demand <= high {
        if demand <= low {
            passed = tally::with_more(found, row.ways, low, place.index);
        } else {
            let inside = Place {
                row: place.row + 1,
                at: rows[place.row + 1].start,
                base: total,
                ..place
            };
            passed = explore(levels, rows, demand, inside, found);
        }
    }
    if place.at + 1 == row.end {
        return passed;
    }
    let beside = Place {
        at: place.at + 1,
        index: place.index + row.stride,
        ..place
    };
    explore(levels, rows, demand, beside, passed)
}

// Where going into the rows begins: a place of the order, and the total of the rows before it.
#[derive(Clone, Copy)]
struct Start {
    place: usize,
    base: u64,
}

// Past the rows with one level, which stand first in the order and leave nothing to choose; the last row is not passed.
fn past_single(levels: &[u32; 288], ends: &[usize; 32], order: &[usize; 32]) -> Start
    requires { ValidTable levels.now ends.now × Orders levels.now ends.now order.now }
    ensures { Passed levels.now ends.now order.now result.place result.base }
{
    let mut base: u64 = 0;
    for place in 0..31 {
        let k = order[place];
        let at = ordering::start_of(ends, k);
        let end = ends[k];
        if at + 1 < end {
            return Start { place, base };
        }
        base += u64::from(levels[at]);
    }
    Start { place: 31, base }
}

// The total of nothing found: more than any choice's.
const NO_TOTAL: u64 = u64::MAX;

// The search from nothing found on. The strides say how far two neighbouring levels of a row stand apart in the list of all choices.
pub fn find<'a>(
    levels: &'a [u32; 288],
    ends: &'a [usize; 32],
    strides: &[u64; 32],
    demand: u64,
) -> Tally
    requires { Searchable levels.now ends.now strides.now }
    ensures { Searches demand (rows_in levels.now 0 ends.now) result }
{
    let order = ordering::search_order(levels, ends);
    let rows = rows_behind::look_behind(levels, ends, &order, strides);
    let none = Tally {
        covering: 0,
        kept: 0,
        total: NO_TOTAL,
        index: 0,
    };
    let start = past_single(levels, ends, &order);
    let first = Place {
        row: start.place,
        at: ordering::start_of(ends, order[start.place]),
        base: start.base,
        index: 0,
    };
    explore(levels, &rows, demand, first, none)
}
