ghost use Rattle.wire_world.specs.StageStands.{StageStands, LinkTells};
ghost use Rattle.std.specs.Prelude.{◌≡◌, ℕ, List, length, IfOk, OnOk, if◌then◌else◌};
ghost use Rattle.wire_world.specs.declared.happening.Happening.{Happening as EventData};
ghost use Rattle.wire_world.specs.World.{World};
ghost use Rattle.wire_world.specs.Replies.{last_event_moment};
ghost use Rattle.wire_world.specs.Stands.{AllAre, ConsolesStand, AllBy, IsStep, StrayFits, is_skip};
ghost use Rattle.wire_world.specs.Wanted.{Holds, span_at};

use crate::compact_reply::Kept;
use crate::happen::happen;
use crate::incident::Incident;
use crate::stage::Stage;
use crate::{CompactReply, Skip};
use desk_core::MOMENTS;
use fade_core::Fader;
use sacn_receiver::Receiver;
use std::alloc::{AllocError, Global};

fn later(last: u64, moment: u64, reply: &CompactReply) -> u64
    ensures { result ≡ (if is_skip reply.now then last else moment) }
{
    match &reply.0 {
        Kept::Skipped(_) => last,
        _ => moment,
    }
}

// One event.
pub(crate) fn step<F: Fader>(
    alloc: Global,
    stages: &mut [Stage<F>],
    receivers: &mut [Receiver],
    last: &mut u64,
    incident: Incident<'_>,
) -> Result<CompactReply, AllocError>
    requires real { (w : World) × (past : List EventData)
        × ConsolesStand (StageStands F.stands_for) stages.old w past }
    requires early { AllBy receivers.old last.old }
    requires within { StrayFits (length incident.strays.now) incident.event.what }
    requires holds { Holds stages.old incident.event.what }
    ensures spans { OnOk result ((i u : ℕ) → span_at stages.new i u ≡ span_at stages.old i u) }
    ensures step { let h = incident.entry in
        IfOk result (λ r. (w : World) (past : List EventData) → w.strays ≡ h.strays.now
        → last.old ≡ last_event_moment past
        → AllAre (StageStands F.stands_for) LinkTells stages.old receivers.old w past
        → IsStep (StageStands F.stands_for) LinkTells stages.new receivers.new last.new r
        w past h.event) }
{
    let event = incident.event;
    if event.moment < *last {
        return Ok(CompactReply(Kept::Skipped(Skip::Backwards)));
    }
    if event.moment >= MOMENTS {
        return Ok(CompactReply(Kept::Skipped(Skip::TooLarge)));
    }
    let reply = happen(alloc, stages, receivers, incident)?;
    *last = later(*last, event.moment, &reply);
    Ok(reply)
}
