// What stands behind each place of an order of a table's rows, for the search and for the strides of the list of all choices.
ghost use Rattle.std.specs.Prelude.{List, ℕ};
ghost use Rattle.engine_table.specs.table.Places.{ValidTable};
ghost use Rattle.engine_search.specs.rows_behind.Behind.{Orders, Looks};
ghost use Rattle.engine_search.specs.rows_behind.ByNumber.{FewChoices, Numbers};

use crate::ordering;

// A row of the search: where its levels start and end in the table, and its stride; and of the rows behind it the number of choices, and the sums
// of their lows and of their highs.
#[derive(Clone, Copy, Default)]
pub struct Row {
    pub start: usize,
    pub end: usize,
    pub stride: u64,
    pub ways: u64,
    pub lows: u64,
    pub highs: u64,
}

// The rows of the search, for each place of an order. From the last place up: each row adds its length, its first and its last level.
pub fn look_behind(
    levels: &[u32; 288],
    ends: &[usize; 32],
    order: &[usize; 32],
    strides: &[u64; 32],
) -> [Row; 32]
    requires { ValidTable levels.now ends.now × Orders levels.now ends.now order.now }
    ensures { Looks levels.now ends.now order.now strides.now result }
{
    let mut rows = [Row::default(); 32];
    let mut ways: u64 = 1;
    let mut lows: u64 = 0;
    let mut highs: u64 = 0;
    for i in (0..32).rev() {
        let k = order[i];
        let start = ordering::start_of(ends, k);
        let end = ends[k];
        rows[i] = Row {
            start,
            end,
            stride: strides[k],
            ways,
            lows,
            highs,
        };
        ways *= (end - start) as u64;
        lows += u64::from(levels[start]);
        highs += u64::from(levels[end - 1]);
    }
    rows
}

// The strides of the list of all choices: for each row by number, how many choices the rows behind it have. Only the ends say so.
pub fn strides_of(ends: &[usize; 32]) -> [u64; 32]
    requires { (levels : List ℕ) × FewChoices levels ends.now }
    ensures { Numbers ends.now result }
{
    let mut strides = [0u64; 32];
    let mut n: u64 = 1;
    for i in (0..32).rev() {
        strides[i] = n;
        n *= (ends[i] - ordering::start_of(ends, i)) as u64;
    }
    strides
}
