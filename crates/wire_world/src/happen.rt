ghost use Rattle.wire_world.specs.StageStands.{StageStands, LinkTells};
ghost use Rattle.std.specs.Prelude.{◌≡◌, ℕ, List, length, IfOk, OnOk};
ghost use Rattle.std.specs.Option.{option_map_or};
ghost use Rattle.wire_world.specs.declared.happening.Happening.{Happening as EventData};
ghost use Rattle.wire_world.specs.declared.reply.Reply.TheVariants as reply;
ghost use Rattle.wire_world.specs.World.{World};
ghost use Rattle.wire_world.specs.Replies.{lack_skip, event_reply};
ghost use Rattle.wire_world.specs.Stands.{ConsolesStand, AllHear, AllTell, AllBy, StrayFits};
ghost use Rattle.wire_world.specs.Stands.{unless_skipped};
ghost use Rattle.wire_world.specs.Wanted.{Holds, span_at};

use crate::handover::Handover;
use crate::incident::Incident;
use crate::stage::Stage;
use crate::steps::{deliver_at, hear_at, order_at, show_at, tick_at};
use crate::{CompactReply, Occurrence};
use fade_core::Fader;
use sacn_receiver::Receiver;
use std::alloc::{AllocError, Global};

// What happens at a moment that is not before the last.
pub(crate) fn happen<F: Fader>(
    alloc: Global,
    stages: &mut [Stage<F>],
    receivers: &mut [Receiver],
    incident: Incident<'_>,
) -> Result<CompactReply, AllocError>
    requires real { (w : World) × (past : List EventData)
        × ConsolesStand (StageStands F.stands_for) stages.old w past }
    requires early { AllBy receivers.old incident.event.moment }
    requires within { StrayFits (length incident.strays.now) incident.event.what }
    requires holds { Holds stages.old incident.event.what }
    ensures tell { OnOk result (AllTell LinkTells stages.old → AllTell LinkTells stages.new) }
    ensures spans { OnOk result ((i u : ℕ) → span_at stages.new i u ≡ span_at stages.old i u) }
    ensures reply { let h = incident.entry in
        IfOk result (λ r. (w : World) (past : List EventData)
        → w.strays ≡ h.strays.now → ConsolesStand (StageStands F.stands_for) stages.old w past
        → AllTell LinkTells stages.old → AllHear receivers.old w past
        → r ≡ option_map_or reply.Skipped (lack_skip w past h.event.what)
        (event_reply w past h.event.moment h.event.what)) }
    ensures stands { let event = incident.entry.event in
        OnOk result ((w : World) (past : List EventData)
        → ConsolesStand (StageStands F.stands_for) stages.old w past
        → ConsolesStand (StageStands F.stands_for) stages.new w
        (unless_skipped (lack_skip w past event.what) event past)) }
    ensures hear { let h = incident.entry in
        OnOk result ((w : World) (past : List EventData) → w.strays ≡ h.strays.now
        → ConsolesStand (StageStands F.stands_for) stages.old w past → AllTell LinkTells stages.old
        → AllHear receivers.old w past
        → AllHear receivers.new w (unless_skipped (lack_skip w past h.event.what) h.event past)) }
{
    let Incident { event, strays } = incident;
    let moment = event.moment;
    match event.what {
        Occurrence::Order(console, instruction) => {
            Ok(order_at(stages, console, moment, instruction))
        }
        Occurrence::Tick(console) => tick_at(alloc, stages, console, moment),
        Occurrence::Deliver {
            receiver,
            console,
            universe,
            k,
        } => {
            let handover = Handover {
                receiver,
                console,
                universe,
                k,
            };
            Ok(deliver_at(stages, receivers, moment, handover))
        }
        Occurrence::Stray { receiver, from, to } => {
            let bytes = &strays[from as usize..to as usize];
            Ok(hear_at(receivers, receiver, moment, bytes))
        }
        Occurrence::Show(receiver) => show_at(alloc, receivers, receiver, moment),
    }
}
