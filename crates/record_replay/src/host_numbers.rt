// What a C host gets of an answer: one number of 64 bits (document 01, Frames, the C host).
#![tactic(auto)]

ghost use Rattle.std.specs.Prelude.{◌≡◌};
ghost use Rattle.rules_demand.specs.Answer.{demand_answer};
ghost use Rattle.engine_refusals.specs.Numbers.{number_in};
ghost use Rattle.record_replay.specs.host_numbers.HostNumbers.{value_answer, answered, host_number, host_remainder};

use engine_refusals::Refusal;

// What C gets of an answer: the value, or 2^64 less the refusal's number.
#[tactic(auto, unfolding(crate::specs::host_numbers::HostNumbers::host_number))]
pub fn host_number(answer: Result<u64, Refusal>) -> u64
    ensures { result ≡ host_number (answered answer) }
{
    match answer {
        Ok(value) => value,
        Err(refusal) => u64::MAX - (u64::from(u8::from(refusal)) - 1),
    }
}

// What C gets of an answer that has no value: 0, or 2^64 less the refusal's number.
pub fn bare_number(answer: Result<(), Refusal>) -> u64
    ensures { result ≡ host_number (value_answer (number_in answer) 0) }
{
    host_number(answer.map(|()| 0))
}

// Dem(p), or 2^64 - 1 where the settings or p are beyond their bounds.
#[tactic(auto, unfolding(crate::specs::host_numbers::HostNumbers::host_number))]
pub fn demand_number(ce: u64, d: u64, m1: u64, m2: u64, p: u64) -> u64
    ensures { result ≡ host_number (demand_answer ce d m1 m2 p) }
{
    host_number(engine_demand::demand(ce, d, m1, m2, p).map(|demanded| demanded.quantity))
}

// The remainder of Dem(p) (document 02, 4), or 2^64 - 1 likewise.
#[tactic(auto, unfolding(crate::specs::host_numbers::HostNumbers::host_number, crate::specs::host_numbers::HostNumbers::host_remainder))]
pub fn remainder_number(ce: u64, d: u64, m1: u64, m2: u64, p: u64) -> u64
    ensures { result ≡ host_remainder (demand_answer ce d m1 m2 p) }
{
    host_number(engine_demand::demand(ce, d, m1, m2, p).map(|demanded| u64::from(
        demanded.remainder,
    )))
}
