// The choices of one level from each row of a table: how many there are, how many cover a demand, how many of these the search keeps, and the
// best of them.
ghost use Rattle.std.specs.Prelude.{◌≡◌, [], ◌≤◌, ◌<◌, get_or};
ghost use Rattle.rules_choices.specs.Choices.{choices};
ghost use Rattle.rules_choices.specs.Numbered.{count};
ghost use Rattle.engine_table.specs.table.Rows.{rows_in};
ghost use Rattle.engine_search.specs.searching.Searches.{Searchable};
ghost use Rattle.engine_search.specs.selection.Selection.{selection_in, Selects};

use crate::{ordering, rows_behind, searching};
use engine_refusals::Refusal;
use engine_table::counting;
use engine_table::table::Table;

// What settling a table comes to where there are no more choices than the limit.
#[derive(Clone, Copy)]
pub struct Selected {
    pub choices: u64,
    pub covering: u64,
    // the complete choices that the search does not set aside
    pub kept: u64,
    pub total: u64,
    pub award: [u32; 32],
}

// The numbers of choices, of covering ones and of kept ones, and the best one: least total, ties to the larger level at the first project where
// they differ. The limit is capped by then. A table that does not hold 32 rows of open levels, which no auction reached by calls has, is refused as
// not in this phase.
pub fn select(t: Table, demand: u64, limit: u64) -> Result<Selected, Refusal>
    requires { limit ≤ 65536 }
    ensures { Selects t demand limit (selection_in result) }
{
    if !counting::is_valid(&t.levels, &t.ends) {
        return Err(Refusal::NotInThisPhase);
    }
    let counted = counting::count_choices(&t.ends, limit);
    if limit < counted {
        return Err(Refusal::AboveTheLimit);
    }
    let strides = rows_behind::strides_of(&t.ends);
    let found = searching::find(&t.levels, &t.ends, &strides, demand);
    let award = choice_at(&t.levels, &t.ends, &strides, found.index);
    Ok(Selected {
        choices: counted,
        covering: found.covering,
        kept: found.kept,
        total: found.total,
        award,
    })
}

// The choice at a place among all of them, level by level: as many choices as the rows behind have stand together under one level. A place below
// that number has the row's first level and is the place behind it: always so in a row with one level.
fn choice_at<'a>(
    levels: &'a [u32; 288],
    ends: &'a [usize; 32],
    counts: &[u64; 32],
    index: u64,
) -> [u32; 32]
    requires { Searchable levels.now ends.now counts.now × (index < count (rows_in levels.now 0 ends.now)) }
    ensures { result ≡ get_or (choices (rows_in levels.now 0 ends.now)) index [] }
{
    let mut award = [0u32; 32];
    let mut rank = index;
    for (i, &n) in counts.iter().enumerate() {
        let first = ordering::start_of(ends, i);
        if rank < n {
            award[i] = levels[first];
        } else {
            let level = (rank / n) as usize;
            award[i] = levels[first + level];
            rank %= n;
        }
    }
    award
}
