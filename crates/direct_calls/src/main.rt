// Makes the calls on standard input on the library directly, a line each, and prints each one's kind and number and, for a settling, price,
// demand, total, counts and the lent buffer. They are what no frame can say: wider settings, longer lists, lists of unequal length, buffers of
// chosen lengths. The independent implementation (tests/independent/src/bin/direct_calls.rs) makes the same calls and has to print the same.
#![tactic(auto)]

use engine_auction::Auction;
use engine_refusals::{Refusal, answer_number};
use engine_settling::Settlement;
use lists::{FALLS, LEVELS, PRICES};
use program_input::{byte, with_digit, word};
use std::io;

mod lists;

fn write_bytes(rt: &impl Print, bytes: &[u8]) -> io::Result<()> {
    for byte in bytes {
        print!(rt; "{byte:02x}")?;
    }
    Ok(())
}

// The first n numbers of a list, or all where it has no more.
fn first(list: &[u32], n: usize) -> &[u32] {
    &list[..n.min(list.len())]
}

// Prints the line of a call, its kind and its number, and gives the auction behind it: where it is refused, the one before.
fn answered(
    rt: &impl Print,
    kind: u64,
    before: Auction,
    answer: Result<Auction, Refusal>,
) -> io::Result<Auction> {
    let number = answer_number(&answer);
    println!(rt; "{kind} {number}")?;
    Ok(answer.unwrap_or(before))
}

fn offer(
    rt: &impl Print,
    auction: Auction,
    developer: u64,
    n: usize,
    m: usize,
) -> io::Result<Auction> {
    let developer = byte(developer);
    let prices = first(&PRICES, n);
    let levels = first(&FALLS, m);
    let answer = auction.offer(developer, prices, levels);
    answered(rt, 4, auction, answer)
}

fn close(rt: &impl Print, auction: Auction) -> io::Result<Auction> {
    let answer = auction.close().map(|closing| closing.auction);
    answered(rt, 5, auction, answer)
}

// A settling's number and the numbers that it answers: of a refused one all 0.
fn write_settling(rt: &impl Print, answer: Result<Settlement, Refusal>) -> io::Result<()> {
    match answer {
        Ok(settlement) => {
            let Settlement {
                price,
                demand,
                total,
                choices,
                covering,
                records,
                ..
            } = settlement;
            print!(rt; "6 0 {price} {demand} {total} {choices} {covering} {records} ")
        }
        Err(refusal) => {
            let number = u8::from(refusal);
            print!(rt; "6 {number} 0 0 0 0 0 0 ")
        }
    }
}

// Settles with this buffer for the awards.
fn settle_in(rt: &impl Print, auction: Auction, limit: u32, awards: &mut [u8]) -> io::Result<()> {
    let answer = engine_settling::settle(auction, limit, awards);
    write_settling(rt, answer)?;
    write_bytes(rt, awards)?;
    rt.write_all(b"\n")
}

// The same with the first `lent` bytes of a buffer of 200.
fn settle(rt: &impl Print, auction: Auction, limit: u32, lent: u32) -> io::Result<Auction> {
    let mut buffer = [0xEE; 200];
    let n = (lent as usize).min(buffer.len());
    settle_in(rt, auction, limit, &mut buffer[..n])?;
    Ok(auction)
}

// The numbers of a line as they are read: in decimal, a comma behind each but the last, which stands at place `at`. What is no digit is passed
// over.
#[derive(Clone, Copy)]
struct Line {
    numbers: [u64; 6],
    at: usize,
}

impl Line {
    fn new() -> Line {
        Line {
            numbers: [0; 6],
            at: 0,
        }
    }

    // Goes on with a byte, which is not the line's end.
    fn add(&mut self, b: u8) {
        let i = self.at % 6;
        if b == b',' {
            self.at = i + 1;
        } else {
            self.numbers[i] = with_digit(self.numbers[i], b);
        }
    }
}

// A registration, by the kind of its frame: of six numbers, the last is its agent (document 02, 10).
fn register(rt: &impl Print, auction: Auction, line: Line) -> io::Result<Auction> {
    let n = line.numbers;
    let project = byte(n[1]);
    let developer = byte(n[2]);
    let kind = byte(n[3]);
    let levels = first(&LEVELS, n[4] as usize);
    if line.at == 5 {
        let agent = byte(n[5]);
        let answer = auction.register_for(project, developer, kind, agent, 0, 0, levels);
        return answered(rt, 8, auction, answer);
    }
    let answer = auction.register(project, developer, kind, 0, 0, levels);
    answered(rt, 2, auction, answer)
}

// Makes the call of a line. Its first number is the kind that document 01 gives the call's frame, or 7 for a fresh auction.
fn made(rt: &impl Print, auction: Auction, line: Line) -> io::Result<Auction> {
    let n = line.numbers;
    match n[0] {
        1 => answered(rt, 1, auction, auction.set_up(n[1], n[2], n[3], n[4], n[5])),
        2 => register(rt, auction, line),
        3 => answered(rt, 3, auction, auction.open(word(n[1]))),
        4 => offer(rt, auction, n[1], n[2] as usize, n[3] as usize),
        5 => close(rt, auction),
        6 => settle(rt, auction, word(n[1]), word(n[2])),
        7 => Ok(Auction::new()),
        _ => Ok(auction),
    }
}

fn run(rt: &impl Print, text: &[u8]) -> io::Result<()> {
    let mut auction = Auction::new();
    let mut line = Line::new();
    for b in text {
        if *b == b'\n' {
            auction = made(rt, auction, line)?;
            line = Line::new();
        } else {
            line.add(*b);
        }
    }
    Ok(())
}

fn main(rt: HostRuntime) -> io::Result<()> {
    let mut text = [0; 65_536];
    let n = program_input::read_full(&mut rt.stdin(), &mut text)?;
    run(&rt, &text[..n])
}
