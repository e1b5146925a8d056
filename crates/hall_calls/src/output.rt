// What is printed of a call: numbers with a blank before each, then what the seat reads.
use engine_held::levels::Levels;
use engine_refusals::Refusal;
use engine_settling::Settlement;
use hall::seat_readings::{Reading, StandingOffer};
use std::fmt::Display;
use std::io;

// A blank and a number.
pub fn write_number<N: Display + Drop>(rt: &impl Print, n: N) -> io::Result<()> {
    print!(rt; " {n}")
}

// A refusal's number, and 0 for each of the values that an accepted call of its kind answers.
pub fn write_refusal(rt: &impl Print, refusal: Refusal, values: usize) -> io::Result<()> {
    write_number(rt, u8::from(refusal))?;
    for _ in 0..values {
        write_number(rt, 0u8)?;
    }
    Ok(())
}

// The lent buffer, two digits a byte. Of an empty one the blank is left out too.
fn write_awards(rt: &impl Print, awards: &[u8]) -> io::Result<()> {
    if awards.is_empty() {
        return Ok(());
    }
    rt.write_all(b" ")?;
    for byte in awards {
        print!(rt; "{byte:02X}")?;
    }
    Ok(())
}

fn write_settlement(rt: &impl Print, s: Settlement) -> io::Result<()> {
    write_number(rt, 0u8)?;
    write_number(rt, s.price)?;
    write_number(rt, s.demand)?;
    write_number(rt, s.remainder)?;
    write_number(rt, s.total)?;
    write_number(rt, s.choices)?;
    write_number(rt, s.covering)?;
    write_number(rt, s.kept)?;
    write_number(rt, s.second)?;
    write_number(rt, u8::from(s.short))?;
    write_number(rt, u8::from(s.insufficient))?;
    write_number(rt, s.paid)?;
    write_number(rt, s.records)
}

// A settling's numbers, and the lent buffer.
pub fn write_settling(
    rt: &impl Print,
    answer: Result<Settlement, Refusal>,
    awards: &[u8],
) -> io::Result<()> {
    match answer {
        Ok(settlement) => write_settlement(rt, settlement)?,
        Err(refusal) => write_refusal(rt, refusal, 12)?,
    }
    write_awards(rt, awards)
}

fn write_levels(rt: &impl Print, levels: Levels) -> io::Result<()> {
    for level in levels.values.iter().take(levels.count) {
        write_number(rt, *level)?;
    }
    Ok(())
}

fn write_steps(rt: &impl Print, offer: StandingOffer) -> io::Result<()> {
    for (price, level) in offer.prices.iter().zip(&offer.levels).take(offer.count) {
        print!(rt; " {price}:{level}")?;
    }
    Ok(())
}

// An offer of no steps has no word behind its own, one that is missing has.
fn write_offer(rt: &impl Print, offer: Option<StandingOffer>) -> io::Result<()> {
    rt.write_all(b" offer")?;
    match offer {
        None => rt.write_all(b" none"),
        Some(offer) => write_steps(rt, offer),
    }
}

// The end of a line.
pub fn write_reading(rt: &impl Print, reading: Reading) -> io::Result<()> {
    rt.write_all(b" |")?;
    write_number(rt, reading.opening)?;
    write_number(rt, reading.closing)?;
    write_number(rt, reading.excess)?;
    write_number(rt, u8::from(reading.phase))?;
    rt.write_all(b" levels")?;
    write_levels(rt, reading.levels)?;
    write_offer(rt, reading.offer)?;
    rt.write_all(b"\n")
}
