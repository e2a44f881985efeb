ghost use Rattle.wire_world.specs.StageStands.{StageStands, LinkTells};
ghost use Rattle.std.specs.Prelude.{◌≡◌, ◌<◌, [], length, IfOk, All};
ghost use Rattle.wire_world.specs.Stands.{HasOpened};

use crate::Setup;
use crate::stage::Stage;
use fade_core::Fader;
use show_core::Show;
use std::alloc::{AllocError, Global};

// The consoles, each with its show. No event delivers a packet behind packet `last`.
pub(crate) fn open_all<F: Fader>(
    alloc: Global,
    shows: &[Show],
    setups: &[Setup],
    last: u64,
) -> Result<Vec<Stage<F>>, AllocError>
    requires { All (λ s. s.show < length shows.now) setups.now }
    ensures opened { IfOk result (λ stages. HasOpened
        (StageStands F.stands_for) LinkTells stages.items shows.now setups.now
        (length setups.now)) }
    ensures last { IfOk result (λ stages. All (λ stage. stage.last ≡ last) stages.items) }
{
    let mut stages = Vec::new(alloc);
    for i in 0..setups.len() {
        let setup = setups[i];
        let stage = open(alloc, &shows[setup.show], setup, last)?;
        stages.push(stage)?;
    }
    Ok(stages)
}

// A console, where the universes of its show have numbers.
fn open<F: Fader>(
    alloc: Global,
    show: &Show,
    setup: Setup,
    last: u64,
) -> Result<Stage<F>, AllocError>
    ensures stands { IfOk result (λ stage. (StageStands F.stands_for) stage
        (record { show = show.now; base = setup.base; source = setup.identity }) []
        × LinkTells stage) }
    ensures last { IfOk result (λ stage. stage.last ≡ last) }
{
    match Stage::open(alloc, show, setup.base, setup.identity, last) {
        Ok(stage) => Ok(stage),
        Err(_) => Err(AllocError),
    }
}
