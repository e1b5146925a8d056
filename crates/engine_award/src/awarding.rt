// The developers that get the awarded levels.
ghost use Rattle.std.specs.Prelude.{◌≡◌, ◌+◌, ◌<◌, ◌≤◌};
ghost use Rattle.engine_held.specs.levels.Held.{levels_in};
ghost use Rattle.engine_award.specs.awarding.Awarding.{winners_from};
ghost use Rattle.engine_award.specs.awarding.Choosing.{preferences_in, standing_in, may_get, better};

use crate::by_number::of_number;
use engine_auction::Auction;
use engine_held::levels::Levels;

// The developer of each awarded level: of those to whom it is open the one with the highest study value, then the earliest start day,
// then the lowest number; 0 for a project without an award.
pub fn winners(auction: &Auction, lows: [u32; 32], highs: [u32; 32], award: [u32; 32]) -> [u8; 32]
    ensures { result ≡ winners_from
        (standing_in auction.now.projects auction.now.studies auction.now.days auction.now.declared lows highs) 0 1 award }
{
    let mut best = [0u8; 32];
    for i in 0..32 {
        let k = auction.projects[i];
        let v = of_number(&award, k, 0);
        if may_get(auction.declared[i], lows[i], highs[i], v) {
            let place = usize::from(k) - 1;
            best[place] = preferred(auction, best[place], i);
        }
    }
    best
}

// Whether level v is above 0 and open to the developer.
#[tactic(auto, unfolding(crate::specs::awarding::Choosing::may_get, rules_auction::specs::Award::open_between))]
fn may_get(levels: Levels, low: u32, high: u32, v: u32) -> bool
    ensures { result ≡ may_get (levels_in levels) low high v }
{
    0 < v && low <= v && v <= high && levels.declares(v)
}

// The preferred one of developer m and the later developer i + 1; the latter where m is 0.
fn preferred(auction: &Auction, m: u8, i: usize) -> u8
    requires { (m ≤ 32) × (i < 32) }
    ensures { result ≡ better (preferences_in auction.now.studies auction.now.days) m (i + 1) }
{
    let n = (i + 1) as u8;
    if m == 0 {
        return n;
    }
    let j = usize::from(m) - 1;
    let studies = &auction.studies;
    let days = &auction.days;
    if studies[j] < studies[i] || studies[i] == studies[j] && days[i] < days[j] {
        n
    } else {
        m
    }
}
