ghost use Rattle.std.specs.Prelude.{◌<◌, ◌≤◌, length, IfOk, All};
ghost use Rattle.wire_world.specs.Reported.{IsReportOf};
ghost use Rattle.wire_world.specs.Stands.{SendersAreSources, StrayFits, world_of};

use crate::listening::listen_all;
use crate::lows::last_wanted;
use crate::opening::open_all;
use crate::replay::run;
use crate::stage::Stage;
use crate::{CompactReport, Happening, Setup};
use fade_core::Fader;
use show_core::Show;
use std::alloc::{AllocError, Global};

// A rehearsal whose setup was checked.
pub(crate) fn perform<F: Fader>(
    alloc: Global,
    shows: &[Show],
    consoles: &[Setup],
    receivers: &[u16],
    events: &[Happening],
    strays: &[u8],
) -> Result<CompactReport, AllocError>
    requires shows { All (λ s. s.show < length shows.now) consoles.now }
    requires universes { All (λ u. (1 ≤ u) × (u ≤ 63999)) receivers.now }
    requires within { All (λ e. StrayFits (length strays.now) e.what) events.now }
    ensures report { let w = world_of shows.now consoles.now receivers.now strays.now in
        IfOk result (IsReportOf w events.now) }
    ensures sources { IfOk result (λ _. SendersAreSources shows.now consoles.now) }
{
    let last = last_wanted(events);
    let mut listeners = listen_all(alloc, receivers)?;
    let mut stages: Vec<Stage<F>> = open_all(alloc, shows, consoles, last)?;
    run(
        alloc,
        stages.as_mut_slice(),
        listeners.as_mut_slice(),
        strays,
        events,
    )
}
