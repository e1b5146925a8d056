// The clock of an auction: the settings that it runs by, demand by them, and what its phases say. Each function ensures a rule, of the ledger that is
// read from what an auction holds (specs/clock/Reading.antt).
ghost use Rattle.std.specs.Prelude.{◌≡◌, cond, ◌≤◌};
ghost use Rattle.rules_auction.specs.Ledger.{Between, Closed, start};
ghost use Rattle.rules_auction.specs.Refusals.{is_fresh, is_ready, may_open, in_round, is_between, is_closed, opening_price};
ghost use Rattle.engine_refusals.specs.Numbers.{number_in};
ghost use Rattle.engine_checks.specs.clock.Held.{phase_number, held_phase, held_clock};
ghost use Rattle.engine_checks.specs.clock.Reading.{phase_of, phase_in, clock_in, demanded_at};
ghost use Rattle.engine_checks.specs.clock.Opening.{StartCovered, OpeningNumber};

use engine_held::supply;
use engine_refusals::Refusal;

// The phases (document 01, Rounds).
#[derive(Clone, Copy, Debug, PartialEq, Eq)]
pub enum Phase {
    Fresh = 0,
    Ready = 1,
    Round = 2,
    Between = 3,
    Closed = 4,
}

impl Phase {
    // Whether set-up is accepted.
    pub fn is_fresh(self) -> bool
        ensures { result ≡ is_fresh (phase_in self) }
    {
        self == Phase::Fresh
    }

    // Whether registrations and lodgings are accepted; the next opening is the first.
    pub fn is_ready(self) -> bool
        ensures { result ≡ is_ready (phase_in self) }
    {
        self == Phase::Ready
    }

    // Whether an opening is accepted.
    pub fn may_open(self) -> bool
        ensures { result ≡ may_open (phase_in self) }
    {
        matches!(self, Phase::Ready | Phase::Between)
    }

    // Whether offers, cancellations and closing are accepted.
    pub fn in_round(self) -> bool
        ensures { result ≡ in_round (phase_in self) }
    {
        self == Phase::Round
    }

    // Whether the question who can force the price is accepted (document 02, 11).
    pub fn is_between(self) -> bool
        ensures { result ≡ is_between (phase_in self) }
    {
        self == Phase::Between
    }

    // Whether settling is accepted.
    pub fn is_closed(self) -> bool
        ensures { result ≡ is_closed (phase_in self) }
    {
        self == Phase::Closed
    }
}

impl From<Phase> for u8 {
    ghost from_gives = { λ p n. n ≡ phase_number p };

    fn from(phase: Phase) -> u8 {
        phase as u8
    }
}

// A number that is no phase's is taken as Fresh.
impl From<u8> for Phase {
    ghost from_gives = { λ n p. phase_in p ≡ phase_of n };

    fn from(n: u8) -> Phase {
        match n {
            1 => Phase::Ready,
            2 => Phase::Round,
            3 => Phase::Between,
            4 => Phase::Closed,
            _ => Phase::Fresh,
        }
    }
}

// The settings that set-up stores: CE, D, M1, M2 and A (document 01, Demand).
#[derive(Clone, Copy)]
pub struct Settings {
    pub ce: u32,
    pub d: u64,
    pub m1: u64,
    pub m2: u64,
    pub a: u32,
}

impl Settings {
    // Dem(p) by these settings; 0 where p or the settings are beyond their bounds.
    pub fn demand_at(self, p: u32) -> u64
        ensures { (result ≡ (demanded_at self p).value) × (result ≤ 100000000000) }
    {
        match engine_demand::demand(self.ce as u64, self.d, self.m1, self.m2, p as u64) {
            Ok(demanded) => demanded.quantity,
            Err(_) => 0,
        }
    }

    // The remainder of Dem(p) (document 02, 4); 0 likewise.
    pub fn remainder_at(self, p: u32) -> u32
        ensures { result ≡ (demanded_at self p).remainder }
    {
        match engine_demand::demand(self.ce as u64, self.d, self.m1, self.m2, p as u64) {
            Ok(demanded) => demanded.remainder,
            Err(_) => 0,
        }
    }
}

// The phase, the settings, and the opening price and C of the open or else the latest round.
#[derive(Clone, Copy)]
pub struct Clock {
    pub phase: Phase,
    pub settings: Settings,
    pub opening: u32,
    pub closing: u32,
}

impl Clock {
    // That of a fresh auction.
    pub fn new() -> Clock
        ensures { result ≡ held_clock start }
    {
        Clock {
            phase: Phase::Fresh,
            settings: Settings {
                ce: 0,
                d: 0,
                m1: 0,
                m2: 0,
                a: 0,
            },
            opening: 0,
            closing: 0,
        }
    }

    // The opening price of the next round: A, or the last C.
    #[tactic(auto, unfolding(rules_auction::specs::Refusals::opening_price))]
    pub fn opening_price(self) -> u32
        ensures { result ≡ opening_price (clock_in self) }
    {
        if self.phase.is_ready() {
            return self.settings.a;
        }
        self.closing
    }

    // Whether A is covered, if this is the first opening.
    fn start_covered(self, projects: [u8; 32], quantities: [u32; 32]) -> bool
        ensures { StartCovered self projects quantities result }
    {
        if !self.phase.is_ready() {
            return true;
        }
        self.settings.demand_at(self.settings.a) <= supply::supply(projects, quantities)
    }

    // Whether an opening that announces C is accepted. Checks: 2, 5, 9.
    pub fn check_opening(
        self,
        projects: [u8; 32],
        quantities: [u32; 32],
        c: u32,
    ) -> Result<(), Refusal>
        ensures { OpeningNumber c self projects quantities (number_in result) }
    {
        if !self.phase.may_open() {
            return Err(Refusal::NotInThisPhase);
        }
        if c < self.settings.ce / 2 {
            return Err(Refusal::BadRoundPrice);
        }
        if self.opening_price() <= c {
            return Err(Refusal::BadRoundPrice);
        }
        if !self.start_covered(projects, quantities) {
            return Err(Refusal::OpeningNotCovered);
        }
        Ok(())
    }
}

// The phase once a round is closed.
pub fn phase_after(cleared: bool) -> Phase
    ensures { result ≡ held_phase (cond cleared Closed Between) }
{
    if cleared {
        return Phase::Closed;
    }
    Phase::Between
}
