// Whether a table holds 32 rows of open levels, and how many choices of one level from each it has.
ghost use Rattle.std.specs.Prelude.{◌≡◌, ◌≤◌, ◌<◌, length};
ghost use Rattle.rules_numbers.specs.Lists.{part};
ghost use Rattle.engine_table.specs.table.Rows.{EndsRise};
ghost use Rattle.engine_table.specs.table.Places.{ValidRow, ValidFrom, Long};
ghost use Rattle.engine_table.specs.counting.Counted.{Tells, CountedTo};

use crate::table::Table;
use engine_held::levels::Levels;

// Whether the levels from `at` to below `end` rise strictly, none above 10^9.
fn row_is_valid(levels: &[u32; 288], at: usize, end: usize) -> bool
    requires { (length levels.now ≡ 288) × (at < end) × (end ≤ 288) }
    ensures { Tells result (ValidRow (part levels.now at end)) }
{
    levels[at..end].is_sorted_by(|low, high| low < high) && levels[end - 1] <= Levels::LARGEST
}

// Whether the table holds 32 rows, none empty, each as above.
pub fn is_valid<'a>(levels: &'a [u32; 288], ends: &'a [usize; 32]) -> bool
    requires { Long levels.now ends.now }
    ensures { Tells result (ValidFrom levels.now 0 ends.now) }
{
    let mut at = 0;
    for &end in ends {
        if end <= at || Table::MOST < end || !row_is_valid(levels, at, end) {
            return false;
        }
        at = end;
    }
    true
}

// The number of choices, counted against the limit: where there are more, some number above it.
pub fn count_choices(ends: &[usize; 32], limit: u64) -> u64
    requires { (length ends.now ≡ 32) × EndsRise 0 ends.now 288 × (limit ≤ 65536) }
    ensures { CountedTo limit ends.now result }
{
    let mut n = 1;
    let mut at = 0;
    for &end in ends {
        n *= (end - at) as u64;
        if limit < n {
            return n;
        }
        at = end;
    }
    n
}
