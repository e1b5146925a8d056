// What an accepted settling says in words and decimal numbers, an item a line.
ghost use Rattle.std.specs.Prelude.{◌+◌, ◌≤◌, length};
ghost use Rattle.trace_text.specs.decimal_text.Puts.{Puts};
ghost use Rattle.trace_text.specs.settling_text.SettledLines.{items, items_behind, items_paid, settlement_lines, settled_lines};

use crate::{award_text, decimal_text};
use engine_settling::Settlement;

// Where nothing was settled: 0 in every place.
pub const UNSETTLED: Settlement = Settlement {
    price: 0,
    demand: 0,
    remainder: 0,
    total: 0,
    choices: 0,
    covering: 0,
    kept: 0,
    second: 0,
    short: false,
    insufficient: false,
    paid: 0,
    records: 0,
};

// What an accepted settling says before its awards.
fn put_items(out: &mut [u8], at: usize, s: Settlement) -> usize
    requires { at + 400 ≤ length out.old }
    ensures { Puts (items s) 400 out.old out.new at result }
{
    let price = decimal_text::put_item(out, at, b"price ", s.price as u64);
    let demand = decimal_text::put_item(out, price, b"demand ", s.demand);
    let total = decimal_text::put_item(out, demand, b"total ", s.total);
    let choices = decimal_text::put_item(out, total, b"choices ", s.choices);
    decimal_text::put_item(out, choices, b"covering ", s.covering)
}

// What it says behind them.
fn put_items_behind(out: &mut [u8], at: usize, s: Settlement) -> usize
    requires { at + 200 ≤ length out.old }
    ensures { Puts (items_behind s) 200 out.old out.new at result }
{
    let kept = decimal_text::put_item(out, at, b"kept ", s.kept);
    let remainder = decimal_text::put_item(out, kept, b"remainder ", s.remainder as u64);
    let second = decimal_text::put_item(out, remainder, b"second ", s.second as u64);
    decimal_text::put_item(out, second, b"short ", reply_values::mark(s.short))
}

// What it says last (document 02, 10).
fn put_paid(out: &mut [u8], at: usize, s: Settlement) -> usize
    requires { at + 100 ≤ length out.old }
    ensures { Puts (items_paid s) 100 out.old out.new at result }
{
    let mark = reply_values::mark(s.insufficient);
    let insufficient = decimal_text::put_item(out, at, b"insufficient ", mark);
    decimal_text::put_item(out, insufficient, b"paid ", s.paid as u64)
}

fn put_settlement(out: &mut [u8], at: usize, s: Settlement, awards: [u8; 192]) -> usize
    requires { at + 3000 ≤ length out.old }
    ensures { Puts (settlement_lines s awards) 3000 out.old out.new at result }
{
    let next = put_items(out, at, s);
    // 192 bytes hold 32 award records.
    let behind = award_text::put_awards(out, next, awards, s.records.min(32));
    let last = put_items_behind(out, behind, s);
    put_paid(out, last, s)
}

// What the settlement behind a line says: zeros where there is none.
pub fn put_settled(
    out: &mut [u8],
    at: usize,
    settled: Option<Settlement>,
    awards: [u8; 192],
) -> usize
    requires { at + 3000 ≤ length out.old }
    ensures { Puts (settled_lines settled awards) 3000 out.old out.new at result }
{
    put_settlement(out, at, settled.unwrap_or(UNSETTLED), awards)
}
