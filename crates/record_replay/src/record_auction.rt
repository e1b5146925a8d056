// The auction that a record or a session leaves behind: its calls made in their order, from a fresh auction.
ghost use Rattle.std.specs.Prelude.{◌≡◌};
ghost use Rattle.record_replay.specs.record_auction.Leaves.{Leaves};

use engine_auction::Auction;

// The auction, the excess of the latest closing that was accepted, 0 before there is any, and how many were.
#[derive(Clone, Copy)]
pub struct Left {
    pub auction: Auction,
    pub excess: i64,
    pub closings: usize,
}

// What the lines of a record or, where `seated` says so, of a session leave behind. No reply is within 0 bytes, so that none is written, and settlings behind
// the first line are passed over.
pub fn after(bytes: &[u8], seated: bool) -> Left
    ensures { Leaves seated bytes.now result }
{
    let fresh = Auction::new();
    let mut nothing = [0u8; 1];
    let ran = record_replies::run(fresh, bytes, seated, 0, 0, 0, &mut nothing);
    Left {
        auction: ran.auction,
        excess: ran.excess,
        closings: ran.closings,
    }
}
