// The replies to a closing and to a settling, and the values of their fields.
#![tactic(auto)]

ghost use Rattle.std.specs.Prelude.{◌≡◌, cond, min, ◌*◌, replicate};
ghost use Rattle.rules_numbers.specs.Lists.{padded};
ghost use Rattle.rules_auction.specs.Rounds.{Answered};
ghost use Rattle.rules_auction.specs.Settling as rules;
ghost use Rattle.rules_replies.specs.Replies.{twos_complement, values_of, closing_fields};
ghost use Rattle.engine_settling.specs.Settles.{accepted_in, settled_in, settled_as};
ghost use Rattle.reply_writing.specs.reply_sizes.Texts.{Valued};
ghost use Rattle.reply_values.specs.Shows.{ShowsClosing, ShowsSettling};

use engine_refusals::Refusal;
use engine_settling::Settlement;
use reply_writing::reply_sizes::{AWARD_ROOM, Reply, Values};

// A reply of this kind and number, zero in every other place.
pub fn blank(kind: u8, number: u8) -> Reply
    ensures kind_value { (result.kind ≡ kind) × (result.number ≡ number) × (result.awards ≡ replicate 192 0) }
    ensures filled_value { (result.filled ≡ 0) × (result.values.head ≡ replicate 8 0) × (result.values.tail ≡ replicate 8 0) }
{
    let values = Values {
        head: [0; 8],
        tail: [0; 8],
    };
    Reply {
        kind,
        number,
        values,
        filled: 0,
        awards: [0; AWARD_ROOM],
    }
}

// The 64 bits of a signed number, in two's complement.
pub fn bits_of(x: i64) -> u64
    ensures { result ≡ twos_complement x }
{
    x.cast_unsigned()
}

// Of a closing, by the excess in two's complement and the remainder.
pub fn closing_values(bits: u64, remainder: u32) -> Values
    ensures { (x : Answered) → bits ≡ twos_complement x.excess → remainder ≡ x.remainder → result.head ≡ padded 8 (values_of closing_fields x) }
{
    Values {
        head: [bits, remainder as u64, 0, 0, 0, 0, 0, 0],
        tail: [0; 8],
    }
}

// A mark as a number: 1 where it is set.
pub fn mark(set: bool) -> u64
    ensures { result ≡ cond set 1 0 }
{
    u64::from(set)
}

// Of a settling.
pub fn settling_values(settlement: Settlement) -> Values
    ensures { (s : rules.Settlement) → accepted_in settlement ≡ settled_as s → Valued s result }
{
    Values {
        head: [
            settlement.price as u64,
            settlement.demand,
            settlement.total,
            settlement.choices,
            settlement.covering,
            settlement.records as u64,
            0,
            0,
        ],
        tail: [
            settlement.remainder as u64,
            settlement.second as u64,
            mark(settlement.short),
            mark(settlement.insufficient),
            settlement.paid as u64,
            0,
            0,
            0,
        ],
    }
}

// The bytes of so many award records: 192 bytes hold 32.
pub fn award_bytes(records: usize) -> usize
    ensures { result ≡ 6 * min records 32 }
{
    6 * records.min(32)
}

// The reply to a closing; a refusal shows nothing of the excess and the remainder.
pub fn closing_reply(number: u8, excess: i64, remainder: u32) -> Reply
    ensures { ShowsClosing number excess remainder result }
{
    let values = closing_values(bits_of(excess), remainder);
    Reply {
        values,
        ..blank(5, number)
    }
}

// The reply to a settling, with the bytes that it wrote its award records to; a refusal shows nothing of them.
pub fn settling_reply(settled: Result<Settlement, Refusal>, awards: &[u8; AWARD_ROOM]) -> Reply
    ensures { ShowsSettling (settled_in settled) awards.now result }
{
    match settled {
        Ok(settlement) => Reply {
            kind: 6,
            number: 0,
            values: settling_values(settlement),
            filled: award_bytes(settlement.records),
            awards: *awards,
        },
        Err(refusal) => blank(6, u8::from(refusal)),
    }
}
