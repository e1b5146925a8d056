// The tally of a search: covering choices counted, those not set aside, and the best of them.
ghost use Rattle.std.specs.Prelude.{◌≡◌, ◌+◌, ◌≤◌};
ghost use Rattle.engine_search.specs.tally.Tally.{more};

// What is found so far: how many choices cover, how many of these were not set aside, and the best of them, by its total and its place among all
// choices. They are listed in the tie rule's order, so that at an equal total the later one is better.
#[derive(Clone, Copy)]
pub struct Tally {
    pub covering: u64,
    pub kept: u64,
    pub total: u64,
    pub index: u64,
}

// With n covering choices more, of which only the one of this total and at this place can be kept; above the best total they are only counted.
pub fn with_more(found: Tally, n: u64, total: u64, index: u64) -> Tally
    requires { (found.covering + n ≤ 65536) × (found.kept ≤ found.covering) }
    ensures { result ≡ more n total index found }
{
    let best = found.total;
    let covering = found.covering + n;
    if best < total {
        return Tally { covering, ..found };
    }
    let last = if total == best {
        index.max(found.index)
    } else {
        index
    };
    Tally {
        covering,
        kept: found.kept + 1,
        total,
        index: last,
    }
}
