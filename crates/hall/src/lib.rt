// The auction hall (document 02, 14): the auction with the excess of its latest closing, and the calls that change it, each through a seat. A call
// that the seat has no right to make is refused by 20 before every other check and leaves the hall as it is; otherwise it is the auction's own
// call (specs/Through.antt).
#![tactic(auto)]

ghost use Rattle.std.specs.Prelude.{◌≡◌};
ghost use Rattle.rules_auction.specs.Ledger.{Open, By, Offer, Lodge, Cancel};
ghost use Rattle.rules_seats.specs.Seats.{fresh_hall};
ghost use Rattle.seats.specs.Rights.{seat_in};
ghost use Rattle.engine_auction.specs.Called.{sets_up, registers, registers_for};
ghost use Rattle.hall.specs.Through.{held_hall, AnswersThrough, ClosesThrough, with_auction};

use engine_auction::Auction;
use engine_refusals::Refusal;
use seats::Seat;

pub mod hall_readings;
pub mod seat_readings;

#[derive(Clone, Copy)]
pub struct Hall {
    pub auction: Auction,
    pub excess: i64,
}

// What an accepted closing answers: the excess at C, the remainder of Dem(C), and the next hall.
#[derive(Clone, Copy)]
pub struct HallClosing {
    pub excess: i64,
    pub remainder: u32,
    pub hall: Hall,
}

impl Hall {
    // A fresh auction, no round closed yet.
    pub fn new() -> Hall
        ensures { result ≡ held_hall fresh_hall }
    {
        Hall {
            auction: Auction::new(),
            excess: 0,
        }
    }

    pub fn set_up(
        self,
        seat: Seat,
        ce: u64,
        d: u64,
        m1: u64,
        m2: u64,
        a: u64,
    ) -> Result<Hall, Refusal>
        ensures { AnswersThrough (seat_in seat) (sets_up ce d m1 m2 a) self result }
    {
        if !seats::conducts(seat) {
            return Err(Refusal::NoRight);
        }
        let auction = self.auction.set_up(ce, d, m1, m2, a)?;
        Ok(self.with_auction(auction))
    }

    pub fn register(
        self,
        seat: Seat,
        project: u8,
        developer: u8,
        kind: u8,
        study: u32,
        day: u32,
        levels: &[u32],
    ) -> Result<Hall, Refusal>
        ensures { AnswersThrough (seat_in seat) (registers project developer kind study day levels.now) self result }
    {
        if !seats::conducts(seat) {
            return Err(Refusal::NoRight);
        }
        let auction = self
            .auction
            .register(project, developer, kind, study, day, levels)?;
        Ok(self.with_auction(auction))
    }

    pub fn register_for(
        self,
        seat: Seat,
        project: u8,
        developer: u8,
        kind: u8,
        agent: u8,
        study: u32,
        day: u32,
        levels: &[u32],
    ) -> Result<Hall, Refusal>
        ensures { AnswersThrough (seat_in seat) (registers_for project developer kind agent study day levels.now) self result }
    {
        if !seats::conducts(seat) {
            return Err(Refusal::NoRight);
        }
        let auction = self
            .auction
            .register_for(project, developer, kind, agent, study, day, levels)?;
        Ok(self.with_auction(auction))
    }

    pub fn lodge(
        self,
        seat: Seat,
        developer: u8,
        prices: &[u32],
        levels: &[u32],
    ) -> Result<Hall, Refusal>
        ensures { AnswersThrough (seat_in seat) (By developer (Lodge prices.now levels.now)) self result }
    {
        if !seats::conducts(seat) {
            return Err(Refusal::NoRight);
        }
        let auction = self.auction.lodge(developer, prices, levels)?;
        Ok(self.with_auction(auction))
    }

    pub fn open(self, seat: Seat, c: u32) -> Result<Hall, Refusal>
        ensures { AnswersThrough (seat_in seat) (Open c) self result }
    {
        if !seats::conducts(seat) {
            return Err(Refusal::NoRight);
        }
        let auction = self.auction.open(c)?;
        Ok(self.with_auction(auction))
    }

    pub fn offer(
        self,
        seat: Seat,
        developer: u8,
        prices: &[u32],
        levels: &[u32],
    ) -> Result<Hall, Refusal>
        ensures { AnswersThrough (seat_in seat) (By developer (Offer prices.now levels.now)) self result }
    {
        if !seats::offers_for(seat, u64::from(developer)) {
            return Err(Refusal::NoRight);
        }
        let auction = self.auction.offer(developer, prices, levels)?;
        Ok(self.with_auction(auction))
    }

    pub fn cancel(self, seat: Seat, developer: u8) -> Result<Hall, Refusal>
        ensures { AnswersThrough (seat_in seat) (By developer Cancel) self result }
    {
        if !seats::offers_for(seat, u64::from(developer)) {
            return Err(Refusal::NoRight);
        }
        let auction = self.auction.cancel(developer)?;
        Ok(self.with_auction(auction))
    }

    // The hall with the next auction; the excess stays.
    fn with_auction(self, auction: Auction) -> Hall
        ensures { result ≡ with_auction self auction }
    {
        Hall {
            auction,
            excess: self.excess,
        }
    }

    pub fn close(self, seat: Seat) -> Result<HallClosing, Refusal>
        ensures { ClosesThrough (seat_in seat) self result }
    {
        if !seats::conducts(seat) {
            return Err(Refusal::NoRight);
        }
        let closing = self.auction.close()?;
        let mut hall = self.with_auction(closing.auction);
        hall.excess = closing.excess;
        Ok(HallClosing {
            excess: closing.excess,
            remainder: closing.remainder,
            hall,
        })
    }
}
