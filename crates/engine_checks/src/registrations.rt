// Whether a registration is accepted, by what an auction holds (specs/registrations/Numbers.antt).
ghost use Rattle.engine_refusals.specs.Numbers.{number_in};
ghost use Rattle.engine_checks.specs.registrations.Numbers.{RegistrationNumber};

use crate::checks;
use crate::clock::Phase;
use engine_held::supply;
use engine_refusals::Refusal;

// `numbered` if project, developer and agent (document 02, 10) have numbers 1 to 32. Checks: 2, 3, 4.
pub fn check_registration(
    phase: Phase,
    projects: [u8; 32],
    kinds: [u8; 32],
    numbered: bool,
    project: u8,
    developer: u8,
    kind: u8,
    levels: &[u32],
) -> Result<(), Refusal>
    ensures { RegistrationNumber phase projects kinds numbered project developer kind levels.now (number_in result) }
{
    if !phase.is_ready() {
        return Err(Refusal::NotInThisPhase);
    }
    if !numbered {
        return Err(Refusal::BadNumber);
    }
    let i = supply::place(developer);
    if projects[i] != 0 {
        return Err(Refusal::BadNumber);
    }
    if !checks::declaration_ok(projects, kinds, project, kind, levels) {
        return Err(Refusal::BadRegistration);
    }
    Ok(())
}
