ghost use Rattle.std.specs.Prelude.{◌≡◌, [], length, IfOk, All};
ghost use Rattle.wire_world.specs.World.{World};
ghost use Rattle.wire_world.specs.Reported.{IsReportOf};
ghost use Rattle.wire_world.specs.StageStands.{StageStands, LinkTells};
ghost use Rattle.wire_world.specs.Stands.{AllAre, StrayFits};
ghost use Rattle.wire_world.specs.Wanted.{AreUpTo};

use crate::incident::Incident;
use crate::lows::lows;
use crate::releasing::release;
use crate::showing::show_all;
use crate::stage::Stage;
use crate::step::step;
use crate::{CompactReport, Happening};
use fade_core::Fader;
use sacn_receiver::Receiver;
use std::alloc::{AllocError, Global};

// The replies to all events, and the slots after them.
pub(crate) fn run<F: Fader>(
    alloc: Global,
    stages: &mut [Stage<F>],
    receivers: &mut [Receiver],
    strays: &[u8],
    events: &[Happening],
) -> Result<CompactReport, AllocError>
    requires within { All (λ e. StrayFits (length strays.now) e.what) events.now }
    requires wanted { All (λ stage. AreUpTo events.now stage.last) stages.old }
    requires begun { (w : World) × (w.strays ≡ strays.now)
        × AllAre (StageStands F.stands_for) LinkTells stages.old receivers.old w [] }
    ensures { IfOk result (λ report. (w : World) → w.strays ≡ strays.now
        → AllAre (StageStands F.stands_for) LinkTells stages.old receivers.old w []
        → IsReportOf w events.now report) }
{
    let lows = lows(alloc, events)?;
    let mut replies = Vec::with_capacity(alloc, events.len())?;
    let mut last = 0;
    for i in 0..events.len() {
        let event = events[i];
        let incident = Incident { event, strays };
        let reply = step(alloc, stages, receivers, &mut last, incident)?;
        release(stages, event.what, lows[i]);
        replies.push(reply)?;
    }
    let last = show_all(alloc, receivers, last)?;
    Ok(CompactReport { replies, last })
}
