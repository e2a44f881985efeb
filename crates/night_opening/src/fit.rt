ghost use Rattle.std.specs.Prelude.{◌≡◌, option_map};
ghost use Rattle.night_opening.specs.Fits as spec;
ghost use Rattle.night_opening.specs.Fits.{IsFit, SuitsNumbers, SuitsTargets, numbers_of};

use crate::run_fault::run_fault;
use arrayvec::ArrayVec;
use cmd_faults::RunFault;
use cmd_words::Night;
use remarks::{JobFault, of_target};
use show_reader::read_show;
use std::alloc::Global;
use targets::Targets;

/// Refuses a text that is no show, a base that leaves a universe of the show without a number, and
/// targets that do not suit these universes, in this order.
///
/// # Errors
///
/// `Run` where the show is refused, a universe has no number, or an allocation failed; `Words`
/// where a target does not suit.
pub fn check_fit(alloc: Global, night: &Night, text: &[u8]) -> Result<(), JobFault>
    ensures { IsFit night.now text.now result }
{
    match read_show(alloc, text) {
        Ok(loaded) => check_universes(night, &loaded.show.universes(), text),
        Err(fault) => Err(run_fault(fault.into(), text)),
    }
}

fn check_universes(night: &Night, ordinals: &ArrayVec<u16, 16>, text: &[u8]) -> Result<(), JobFault>
    ensures { SuitsNumbers night.now.targets
        (numbers_of (spec.universes night.now.base ordinals.now.items)) text.now result }
{
    let Some(universes) = universes(night.base, ordinals) else {
        return Err(run_fault(RunFault::Base, text));
    };
    check_each(&night.targets, universes.as_slice())
}

fn check_each(targets: &Targets, universes: &[u16]) -> Result<(), JobFault>
    ensures { SuitsTargets targets.now universes.now result }
{
    match targets.misfit(universes) {
        None => Ok(()),
        Some(misfit) => Err(JobFault::Words(of_target(misfit))),
    }
}

// The universes with these ordinals, where each has a number.
fn universes(base: u16, ordinals: &ArrayVec<u16, 16>) -> Option<ArrayVec<u16, 16>>
    ensures { option_map (λ numbers. numbers.items) result
        ≡ numbers_of (spec.universes base ordinals.now.items) }
{
    let mut universes = ArrayVec::new();
    for ordinal in ordinals.as_slice() {
        let universe = u32::from(base) + u32::from(*ordinal);
        if universe > 63_999 {
            return None;
        }
        universes.push(universe as u16);
    }
    Some(universes)
}
