ghost use Rattle.std.specs.Prelude.{List};
ghost use Rattle.wire_world.specs.declared.happening.Happening.{Happening as EventData};
ghost use Rattle.wire_world.specs.declared.happening.Occurrence.{Occurrence as Happens};
ghost use Rattle.wire_world.specs.World.{World};
ghost use Rattle.wire_world.specs.StageStands.{StageStands, LinkTells};
ghost use Rattle.wire_world.specs.Stands.{ConsolesStand, AllTell};
ghost use Rattle.wire_world.specs.Wanted.{Holds, IsReleased, Spares};

use crate::Occurrence;
use crate::stage::Stage;
use fade_core::Fader;

// After a delivery, lets the packets of its universe go that are before packet `low`.
pub(crate) fn release<F: Fader>(stages: &mut [Stage<F>], what: Occurrence, low: u64)
    ensures tell { AllTell LinkTells stages.old → AllTell LinkTells stages.new }
    ensures stand { (w : World) (past : List EventData)
        → ConsolesStand (StageStands F.stands_for) stages.old w past
        → ConsolesStand (StageStands F.stands_for) stages.new w past }
    ensures holds { (later : Happens) → Holds stages.old later → Spares what low later
        → Holds stages.new later }
    ensures left { IsReleased stages.new what low }
{
    if let Occurrence::Deliver {
        console,
        universe,
        ..
    } = what
    {
        let i = usize::from(console);
        if i < stages.len() {
            stages[i].release(universe, low);
        }
    }
}
