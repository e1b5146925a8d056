// The figures of a closing, from the quantities that it leaves: the excess at C, the remainder of Dem(C), and the phase.
ghost use Rattle.engine_checks.specs.closing_figures.Figured.{Figured};

use crate::clock::{Phase, Settings};
use crate::{clock, closing_checks};
use engine_held::supply;

// The excess, the remainder of Dem(C) (document 02, 4) and the phase after the closing.
#[derive(Clone, Copy)]
pub struct Figures {
    pub excess: i64,
    pub remainder: u32,
    pub phase: Phase,
}

pub fn figures_at(
    settings: Settings,
    closing: u32,
    projects: [u8; 32],
    quantities: [u32; 32],
) -> Figures
    ensures { Figured settings closing projects quantities result }
{
    let supply = supply::supply(projects, quantities);
    let demand = settings.demand_at(closing);
    let remainder = settings.remainder_at(closing);
    let excess = closing_checks::excess_of(supply, demand);
    let cleared = closing_checks::clears(supply, demand, closing, settings.ce / 2);
    Figures {
        excess,
        remainder,
        phase: clock::phase_after(cleared),
    }
}
