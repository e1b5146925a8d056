// Figures written over the start of lent numbers. What stands behind them stays.
ghost use Rattle.engine_refusals.specs.Numbers.{number_in};
ghost use Rattle.figure_writing.specs.lent_numbers.Lent.{GivesFigures};

use engine_refusals::Refusal;

// Writes the figures, if they fit. Checks: 11.
pub fn lend(figures: &[u64], lent: &mut [u64]) -> Result<(), Refusal>
    ensures { GivesFigures 0 figures.now lent.old lent.new (number_in result) }
{
    if lent.len() < figures.len() {
        return Err(Refusal::BufferTooShort);
    }
    lent[..figures.len()].copy_from_slice(figures);
    Ok(())
}
