// What a closing would answer (document 02, 6), by the loop that closes every round: there is one closing of rounds in the library, and the loop holds it.
ghost use Rattle.engine_refusals.specs.Numbers.{number_in};
ghost use Rattle.record_figures.specs.closing_preview.Previews.{WritesPreview};

use engine_auction::Auction;
use engine_refusals::Refusal;
use figure_writing::lent_numbers;

// Excess, remainder, 1 if the auction would then be closed else 0: a copy of it is closed. Checks: 2, 11.
pub fn previewed(auction: Auction, figures: &mut [u64]) -> Result<(), Refusal>
    ensures { WritesPreview auction figures.old figures.new (number_in result) }
{
    let settings = auction.clock.settings;
    let price = auction.clock.closing;
    // 05 and 0A
    let line = [48u8, 53, 10];
    let mut nothing = [0u8; 1];
    let ran = record_replies::run(auction, &line, false, 0, 0, 0, &mut nothing);
    if ran.closings == 0 {
        return Err(Refusal::NotInThisPhase);
    }
    let own = [
        reply_values::bits_of(ran.excess),
        u64::from(settings.remainder_at(price)),
        reply_values::mark(ran.auction.clock.phase.is_closed()),
    ];
    lent_numbers::lend(&own, figures)
}
