// The call of a line: the first two numbers say the seat, the third the kind, and its arguments stand behind them. A kind up to 9 is that of the
// call's frame (document 01, Frames; document 02, 5, 7 and 10); 10 is a preview, 11 a point of the supply curve, 12 who can force the price, 13 a
// reading alone, and 0 a fresh hall.
use crate::input::{Line, count, part};
use crate::output::{write_number, write_reading, write_refusal, write_settling};
use engine_refusals::{Refusal, answer_number};
use hall::{Hall, hall_readings};
use program_input::byte;
use seats::Seat;
use std::io;

fn seat_of(kind: u64, number: u64) -> Seat {
    match kind {
        0 => Seat::Auctioneer,
        2 => Seat::Developer(byte(number)),
        _ => Seat::Auditor,
    }
}

// Prints the number of an answer, and gives the hall behind it: where it is refused, the one before.
fn answered(rt: &impl Print, before: Hall, answer: Result<Hall, Refusal>) -> io::Result<Hall> {
    write_number(rt, answer_number(&answer))?;
    Ok(answer.unwrap_or(before))
}

fn register(rt: &impl Print, hall: Hall, seat: Seat, line: Line) -> io::Result<Hall> {
    let n = line.numbers;
    let study = line.words[6];
    let day = line.words[7];
    let levels = part(&line.words, 9, count(n[8]));
    let answer = hall.register(seat, byte(n[3]), byte(n[4]), byte(n[5]), study, day, levels);
    answered(rt, hall, answer)
}

fn register_for(rt: &impl Print, hall: Hall, seat: Seat, line: Line) -> io::Result<Hall> {
    let n = line.numbers;
    let agent = byte(n[6]);
    let study = line.words[7];
    let day = line.words[8];
    let levels = part(&line.words, 10, count(n[9]));
    let answer = hall.register_for(
        seat,
        byte(n[3]),
        byte(n[4]),
        byte(n[5]),
        agent,
        study,
        day,
        levels,
    );
    answered(rt, hall, answer)
}

// An offer, or the lodging of a withdrawal list.
fn step_list(
    rt: &impl Print,
    hall: Hall,
    seat: Seat,
    lodging: bool,
    line: Line,
) -> io::Result<Hall> {
    let n = line.numbers;
    let developer = byte(n[3]);
    let steps = count(n[4]);
    let prices = part(&line.words, 6, steps);
    let levels = part(&line.words, 6 + steps, count(n[5]));
    if lodging {
        return answered(rt, hall, hall.lodge(seat, developer, prices, levels));
    }
    answered(rt, hall, hall.offer(seat, developer, prices, levels))
}

fn close(rt: &impl Print, hall: Hall, seat: Seat) -> io::Result<Hall> {
    match hall.close(seat) {
        Ok(closing) => {
            write_number(rt, 0u8)?;
            write_number(rt, closing.excess)?;
            write_number(rt, closing.remainder)?;
            Ok(closing.hall)
        }
        Err(refusal) => {
            write_refusal(rt, refusal, 2)?;
            Ok(hall)
        }
    }
}

// Settles with this buffer for the awards.
fn settle_in(
    rt: &impl Print,
    hall: Hall,
    seat: Seat,
    limit: u32,
    awards: &mut [u8],
) -> io::Result<()> {
    let answer = hall_readings::settle(hall, seat, limit, awards);
    write_settling(rt, answer, awards)
}

// The same with the first `lent` bytes of a buffer of 200.
fn settle(rt: &impl Print, hall: Hall, seat: Seat, limit: u32, lent: u32) -> io::Result<Hall> {
    let mut buffer = [0xEE; 200];
    let n = (lent as usize).min(buffer.len());
    settle_in(rt, hall, seat, limit, &mut buffer[..n])?;
    Ok(hall)
}

fn preview(rt: &impl Print, hall: Hall, seat: Seat) -> io::Result<Hall> {
    match hall_readings::preview_closing(hall, seat) {
        Ok(preview) => {
            write_number(rt, 0u8)?;
            write_number(rt, preview.excess)?;
            write_number(rt, preview.remainder)?;
            write_number(rt, u8::from(preview.closed))?;
        }
        Err(refusal) => write_refusal(rt, refusal, 3)?,
    }
    Ok(hall)
}

fn supply_point(rt: &impl Print, hall: Hall, seat: Seat, place: usize) -> io::Result<Hall> {
    match hall_readings::supply_point(hall, seat, place) {
        Ok(point) => {
            write_number(rt, 0u8)?;
            write_number(rt, point.entries)?;
            write_number(rt, point.price)?;
            write_number(rt, point.before)?;
            write_number(rt, point.after)?;
        }
        Err(refusal) => write_refusal(rt, refusal, 4)?,
    }
    Ok(hall)
}

fn who_can_force(rt: &impl Print, hall: Hall, seat: Seat, line: Line) -> io::Result<Hall> {
    let n = line.numbers;
    let prices = part(&n, 6, count(n[5]));
    match hall_readings::who_can_force(hall, seat, n[3], n[4], prices) {
        Ok(forcing) => {
            write_number(rt, 0u8)?;
            write_number(rt, forcing.outcome)?;
            write_number(rt, u8::from(forcing.withdraws))?;
        }
        Err(refusal) => write_refusal(rt, refusal, 2)?,
    }
    Ok(hall)
}

fn reading_alone(rt: &impl Print, hall: Hall) -> io::Result<Hall> {
    write_number(rt, 0u8)?;
    Ok(hall)
}

// Makes a call of a kind above 0, and prints its number and values.
fn called(rt: &impl Print, hall: Hall, seat: Seat, kind: u64, line: Line) -> io::Result<Hall> {
    let n = line.numbers;
    let words = line.words;
    match kind {
        1 => answered(rt, hall, hall.set_up(seat, n[3], n[4], n[5], n[6], n[7])),
        2 => register(rt, hall, seat, line),
        3 => answered(rt, hall, hall.open(seat, words[3])),
        4 => step_list(rt, hall, seat, false, line),
        5 => close(rt, hall, seat),
        6 => settle(rt, hall, seat, words[3], words[4]),
        7 => step_list(rt, hall, seat, true, line),
        8 => register_for(rt, hall, seat, line),
        9 => answered(rt, hall, hall.cancel(seat, byte(n[3]))),
        10 => preview(rt, hall, seat),
        11 => supply_point(rt, hall, seat, n[3] as usize),
        12 => who_can_force(rt, hall, seat, line),
        _ => reading_alone(rt, hall),
    }
}

// The hall after a line's call. A line of fewer than three numbers has no call, nor has one of another kind.
pub fn made(rt: &impl Print, hall: Hall, line: Line) -> io::Result<Hall> {
    let n = line.numbers;
    let kind = n[2];
    if line.at < 2 || 13 < kind {
        return Ok(hall);
    }
    rt.print(kind)?;
    if kind == 0 {
        rt.write_all(b"\n")?;
        return Ok(Hall::new());
    }
    let seat = seat_of(n[0], n[1]);
    let next = called(rt, hall, seat, kind, line)?;
    write_reading(rt, hall_readings::read(next, seat))?;
    Ok(next)
}
