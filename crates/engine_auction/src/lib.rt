// The auction: its state, passed by value, and the calls that change it. Each call's contract is an equation with the ledger of document 01, for
// every list of calls (specs/Called.antt).
#![tactic(auto)]

ghost use Rattle.std.specs.Prelude.{◌≡◌, ◌<◌, [], ◌&&◌};
ghost use Rattle.rules_auction.specs.Ledger.{settings_of, Offer, Lodge, Cancel, Open, By};
ghost use Rattle.rules_auction.specs.Refusals.{settings_ok, is_number};
ghost use Rattle.rules_auction.specs.Rounds.{ledger};
ghost use Rattle.engine_auction.specs.declared.Auction.{Auction};
ghost use Rattle.engine_auction.specs.Holds.{held_auction};
ghost use Rattle.engine_auction.specs.Called.{sets_up, registers, registers_for, AnswersCall, AnswersClosing};
ghost use Rattle.engine_auction.specs.Parts.{with_clock};
ghost use Rattle.engine_moves.specs.moves.Entries.{entry_of};
ghost use Rattle.engine_auction.specs.Storing.{entry_at, with_history_at};
ghost use Rattle.engine_auction.specs.Decided.{AnswersClock, with_round, Enters, with_newcomer, Closes};

use engine_checks::clock::{Clock, Phase, Settings};
use engine_checks::{checks, closing_figures, registrations};
use engine_curve::kept_curve::SupplyCurve;
use engine_curve::{curve_closing, highs_and_lows};
use engine_held::history::History;
use engine_held::levels::Levels;
use engine_held::supply;
use engine_moves::moves::Entry;
use engine_moves::{closing_entries, moves};
use engine_refusals::Refusal;

// Developer n stands at place n - 1 of each array; a place that is not used is zero. The curve is that of the histories (document 02, 9).
#[derive(Clone, Copy)]
pub struct Auction {
    pub clock: Clock,
    pub projects: [u8; 32],
    pub kinds: [u8; 32],
    pub agents: [u8; 32],
    pub studies: [u32; 32],
    pub days: [u32; 32],
    pub quantities: [u32; 32],
    pub declared: [Levels; 32],
    pub histories: [History; 32],
    pub curve: SupplyCurve,
}

// What an accepted closing answers: the excess at C, the remainder of Dem(C), and the next auction.
#[derive(Clone, Copy)]
pub struct Closing {
    pub excess: i64,
    pub remainder: u32,
    pub auction: Auction,
}

// What an accepted registration stores, and at which place.
#[derive(Clone, Copy)]
pub struct Newcomer {
    pub place: usize,
    pub project: u8,
    pub kind: u8,
    pub agent: u8,
    pub study: u32,
    pub day: u32,
    pub quantity: u32,
    pub declared: Levels,
}

// What the closing of an open round answers, and what it changes.
#[derive(Clone, Copy)]
pub struct Rounded {
    pub excess: i64,
    pub remainder: u32,
    pub phase: Phase,
    pub quantities: [u32; 32],
    pub histories: [History; 32],
    pub curve: SupplyCurve,
}

// Whether the settings are within their bounds. No price is above the top price, so A fits 32 bits.
fn may_set_up(ce: u64, d: u64, m1: u64, m2: u64, a: u64) -> bool
    ensures { result ≡ settings_ok (settings_of ce d m1 m2 a) }
{
    if (Auction::TOP_PRICE as u64) < a {
        return false;
    }
    checks::settings_ok(ce, d, m1, m2, a)
}

// A set-up: the next clock. Checks: 2, 1.
pub fn setting_up(
    clock: &Clock,
    ce: u64,
    d: u64,
    m1: u64,
    m2: u64,
    a: u64,
) -> Result<Clock, Refusal>
    ensures { (x : Auction) → AnswersClock (sets_up ce d m1 m2 a) (with_clock x clock.now) result }
{
    if !clock.phase.is_fresh() {
        return Err(Refusal::NotInThisPhase);
    }
    if !may_set_up(ce, d, m1, m2, a) {
        return Err(Refusal::BeyondBounds);
    }
    let settings = Settings {
        ce: ce as u32,
        d,
        m1,
        m2,
        a: a as u32,
    };
    Ok(Clock {
        phase: Phase::Ready,
        settings,
        opening: clock.opening,
        closing: clock.closing,
    })
}

// An opening that announces c: the next clock. Checks: 2, 5, 9.
pub fn opening_at(auction: &Auction, c: u32) -> Result<Clock, Refusal>
    ensures { (a : Auction) → AnswersClock (Open c) (with_round a auction.now) result }
{
    let clock = auction.clock;
    clock.check_opening(auction.projects, auction.quantities, c)?;
    Ok(Clock {
        phase: Phase::Round,
        settings: clock.settings,
        opening: clock.opening_price(),
        closing: c,
    })
}

// Whether project, developer and agent have numbers 1 to 32.
fn are_numbers(project: u8, developer: u8, agent: u8) -> bool
    ensures { result ≡ is_number project && is_number developer && is_number agent }
{
    Auction::is_number(project) && Auction::is_number(developer) && Auction::is_number(agent)
}

// A registration by an agent (document 02, 10): the newcomer. Checks: 2, 3, 4.
pub fn entering(
    auction: &Auction,
    project: u8,
    developer: u8,
    kind: u8,
    agent: u8,
    study: u32,
    day: u32,
    levels: &[u32],
) -> Result<Newcomer, Refusal>
    ensures { Enters auction.now project developer kind agent study day levels.now result }
{
    registrations::check_registration(
        auction.clock.phase,
        auction.projects,
        auction.kinds,
        are_numbers(project, developer, agent),
        project,
        developer,
        kind,
        levels,
    )?;
    let declared = Levels::copied(levels);
    Ok(Newcomer {
        place: supply::place(developer),
        project,
        kind,
        agent,
        study,
        day,
        quantity: declared.highest(),
        declared,
    })
}

// The closing of an open round. The supply curve is left alone where nobody moved, so that nothing is withdrawn.
pub fn closing_round(auction: &Auction) -> Rounded
    ensures { Closes auction.now result }
{
    let clock = auction.clock;
    let after = closing_entries::with_offers_applied(
        auction.kinds,
        auction.quantities,
        auction.histories,
        clock.opening,
        clock.closing,
    );
    let quantities = after.quantities;
    let withdrawn = after.histories;
    let figures = closing_figures::figures_at(
        clock.settings,
        clock.closing,
        auction.projects,
        quantities,
    );
    if !after.moved {
        return Rounded {
            excess: figures.excess,
            remainder: figures.remainder,
            phase: figures.phase,
            quantities,
            histories: withdrawn,
            curve: auction.curve,
        };
    }
    let highest = highs_and_lows::highest_levels(auction.declared);
    let mut curve = auction.curve;
    let points = curve.count;
    curve.count = curve_closing::extend(
        &mut curve.words,
        points,
        auction.projects,
        highest,
        withdrawn,
        clock.opening,
    );
    Rounded {
        excess: figures.excess,
        remainder: figures.remainder,
        phase: figures.phase,
        quantities,
        histories: withdrawn,
        curve,
    }
}

impl Auction {
    // Projects and developers have numbers 1 to 32 (document 01, Registration).
    pub const MOST_DEVELOPERS: u8 = 32;
    // The highest price that an auction can have: 2 CE at the largest CE (document 01, Demand).
    pub const TOP_PRICE: u32 = 1_000_000;
    // The most choices that a settling counts (document 01, Closing price and award).
    pub const CHOICE_LIMIT: u32 = 65_536;
    // The kinds: an existing plant, a new one (document 01, Registration).
    pub const EXISTING_PLANT: u8 = supply::EXISTING;

    pub const NEW_PLANT: u8 = supply::NEW;

    // Whether n is the number of a project, a developer or an agent.
    pub fn is_number(n: u8) -> bool
        ensures { result ≡ is_number n }
    {
        1 <= n && n <= Auction::MOST_DEVELOPERS
    }

    // A fresh auction.
    pub fn new() -> Auction
        ensures { result ≡ held_auction (ledger []) }
    {
        let none = Levels::none();
        let empty = History::new();
        Auction {
            clock: Clock::new(),
            projects: [0; 32],
            kinds: [0; 32],
            agents: [0; 32],
            studies: [0; 32],
            days: [0; 32],
            quantities: [0; 32],
            declared: [none; 32],
            histories: [empty; 32],
            curve: SupplyCurve::new(),
        }
    }

    // What the auction holds of the developer at place i that its moves read.
    pub fn entry(&self, i: usize) -> Entry<'_>
        requires { i < 32 }
        ensures { entry_of result ≡ entry_at self.now i }
    {
        Entry {
            kind: self.kinds[i],
            declared: &self.declared[i],
            quantity: self.quantities[i],
            history: &self.histories[i],
        }
    }

    fn with_clock(self, clock: Clock) -> Auction
        ensures { result ≡ with_clock self clock }
    {
        Auction { clock, ..self }
    }

    // The auction with the newcomer at its place.
    fn with_newcomer(self, newcomer: Newcomer) -> Auction
        requires { newcomer.place < 32 }
        ensures { result ≡ with_newcomer self newcomer }
    {
        let place = newcomer.place;
        let mut next = self;
        next.projects[place] = newcomer.project;
        next.kinds[place] = newcomer.kind;
        next.agents[place] = newcomer.agent;
        next.studies[place] = newcomer.study;
        next.days[place] = newcomer.day;
        next.quantities[place] = newcomer.quantity;
        next.declared[place] = newcomer.declared;
        next
    }

    // The auction with this history at place i.
    fn with_history(self, i: usize, history: History) -> Auction
        requires { i < 32 }
        ensures { result ≡ with_history_at self i history }
    {
        let mut next = self;
        next.histories[i] = history;
        next
    }

    // Set-up. Checks: 2, 1.
    pub fn set_up(self, ce: u64, d: u64, m1: u64, m2: u64, a: u64) -> Result<Auction, Refusal>
        ensures { AnswersCall (sets_up ce d m1 m2 a) self result }
    {
        let clock = setting_up(&self.clock, ce, d, m1, m2, a)?;
        Ok(self.with_clock(clock))
    }

    // The agent has the developer's number. Checks: 2, 3, 4.
    pub fn register(
        self,
        project: u8,
        developer: u8,
        kind: u8,
        study: u32,
        day: u32,
        levels: &[u32],
    ) -> Result<Auction, Refusal>
        ensures { AnswersCall (registers project developer kind study day levels.now) self result }
    {
        self.register_for(project, developer, kind, developer, study, day, levels)
    }

    // A registration that names its agent (document 02, 10). Checks: 2, 3, 4.
    pub fn register_for(
        self,
        project: u8,
        developer: u8,
        kind: u8,
        agent: u8,
        study: u32,
        day: u32,
        levels: &[u32],
    ) -> Result<Auction, Refusal>
        ensures { AnswersCall (registers_for project developer kind agent study day levels.now) self result }
    {
        let newcomer = entering(&self, project, developer, kind, agent, study, day, levels)?;
        Ok(self.with_newcomer(newcomer))
    }

    // Checks: 2, 5, 9.
    pub fn open(self, c: u32) -> Result<Auction, Refusal>
        ensures { AnswersCall (Open c) self result }
    {
        let clock = opening_at(&self, c)?;
        Ok(self.with_clock(clock))
    }

    // Checks: 2, 3, 8, 6, 7; all prices before any level.
    pub fn offer(self, developer: u8, prices: &[u32], levels: &[u32]) -> Result<Auction, Refusal>
        ensures { AnswersCall (By developer (Offer prices.now levels.now)) self result }
    {
        let i = supply::place(developer);
        let numbered = Auction::is_number(developer);
        let history = moves::offered(&self.clock, numbered, self.entry(i), prices, levels)?;
        Ok(self.with_history(i, history))
    }

    // Taking back an offer (document 02, 7). Checks: 2, 3, 16.
    pub fn cancel(self, developer: u8) -> Result<Auction, Refusal>
        ensures { AnswersCall (By developer Cancel) self result }
    {
        let place = supply::place(developer);
        let numbered = Auction::is_number(developer);
        let history = moves::cancelled(&self.clock, numbered, self.entry(place))?;
        Ok(self.with_history(place, history))
    }

    // Lodging a withdrawal list (document 02, 5). Checks: 2, 15, 6, 7; all prices before any level.
    pub fn lodge(self, developer: u8, prices: &[u32], levels: &[u32]) -> Result<Auction, Refusal>
        ensures { AnswersCall (By developer (Lodge prices.now levels.now)) self result }
    {
        let i = supply::place(developer);
        let numbered = Auction::is_number(developer);
        let history = moves::lodged(&self.clock, numbered, self.entry(i), prices, levels)?;
        Ok(self.with_history(i, history))
    }

    // Checks: 2. The answer is the excess at C, the remainder of Dem(C), and the next auction.
    pub fn close(self) -> Result<Closing, Refusal>
        ensures { AnswersClosing self result }
    {
        if !self.clock.phase.in_round() {
            return Err(Refusal::NotInThisPhase);
        }
        let rounded = closing_round(&self);
        let quantities = rounded.quantities;
        let histories = rounded.histories;
        let curve = rounded.curve;
        let mut auction = self;
        auction.clock.phase = rounded.phase;
        auction.quantities = quantities;
        auction.histories = histories;
        auction.curve = curve;
        Ok(Closing {
            excess: rounded.excess,
            remainder: rounded.remainder,
            auction,
        })
    }
}
