ghost use Rattle.wire_world.specs.StageStands.{StageStands, LinkTells};
ghost use Rattle.std.specs.Prelude.{◌≡◌, ◌==◌, ℕ, List, IfOk, OnOk};
ghost use Rattle.std.specs.Prelude.{if◌then◌else◌, Some, None};
ghost use Rattle.std.specs.Option.{option_map_or};
ghost use Rattle.wire_world.specs.declared.happening.Happening.{Happening as EventData};
ghost use Rattle.wire_world.specs.declared.happening.Occurrence.TheVariants.{Order, Tick, Show};
ghost use Rattle.wire_world.specs.declared.reply.Reply.TheVariants as reply;
ghost use Rattle.wire_world.specs.World.{World};
ghost use Rattle.wire_world.specs.Happened.{datagram_to};
ghost use Rattle.wire_world.specs.Replies.{lack_skip, no_receiver_at, event_reply, datagram_reply};
ghost use Rattle.wire_world.specs.Stands.{ConsolesStand, AllHear, AllTell, AllBy, unless_skipped};
ghost use Rattle.wire_world.specs.Wanted.{Holds, hands_over, span_at};

use crate::Skip;
use crate::answers::{datagram_reply, order_reply, tick_reply};
use crate::compact_reply::{CompactReply, Kept};
use crate::handover::Handover;
use crate::stage::Stage;
use desk_core::Instruction;
use fade_core::Fader;
use sacn_receiver::Receiver;
use std::alloc::{AllocError, Global};

pub(crate) fn order_at<F: Fader>(
    stages: &mut [Stage<F>],
    console: u16,
    moment: u64,
    instruction: Instruction,
) -> CompactReply
    ensures tell { AllTell LinkTells stages.old → AllTell LinkTells stages.new }
    ensures spans { (i u : ℕ) → span_at stages.new i u ≡ span_at stages.old i u }
    ensures reply { (w : World) (past : List EventData) → ConsolesStand
        (StageStands F.stands_for) stages.old w past
        → result ≡ option_map_or reply.Skipped (lack_skip w past (Order console instruction))
        (event_reply w past moment (Order console instruction)) }
    ensures stands { (w : World) (past : List EventData) → ConsolesStand
        (StageStands F.stands_for) stages.old w past
        → ConsolesStand (StageStands F.stands_for) stages.new w (unless_skipped (lack_skip w past
        (Order console instruction))
        (record { moment = moment; what = Order console instruction }) past) }
{
    let i = usize::from(console);
    if i >= stages.len() {
        return CompactReply(Kept::Skipped(Skip::NoConsole));
    }
    order_reply(stages[i].order(moment, instruction))
}

pub(crate) fn tick_at<F: Fader>(
    alloc: Global,
    stages: &mut [Stage<F>],
    console: u16,
    moment: u64,
) -> Result<CompactReply, AllocError>
    requires real { (w : World) × (past : List EventData)
        × ConsolesStand (StageStands F.stands_for) stages.old w past }
    ensures tell { OnOk result (AllTell LinkTells stages.old → AllTell LinkTells stages.new) }
    ensures spans { OnOk result ((i u : ℕ) → span_at stages.new i u ≡ span_at stages.old i u) }
    ensures reply { IfOk result (λ r. (w : World) (past : List EventData)
        → ConsolesStand (StageStands F.stands_for) stages.old w past
        → r ≡ option_map_or reply.Skipped (lack_skip w past (Tick console))
        (event_reply w past moment (Tick console))) }
    ensures stands { OnOk result ((w : World) (past : List EventData)
        → ConsolesStand (StageStands F.stands_for) stages.old w past
        → ConsolesStand (StageStands F.stands_for) stages.new w (unless_skipped (lack_skip w past
        (Tick console)) (record { moment = moment; what = Tick console }) past)) }
{
    let i = usize::from(console);
    if i >= stages.len() {
        return Ok(CompactReply(Kept::Skipped(Skip::NoConsole)));
    }
    let stage = &mut stages[i];
    let answer = stage.tick(alloc, moment);
    if stage.is_full() {
        return Err(AllocError);
    }
    tick_reply(alloc, answer)
}

// A datagram reaches a receiver.
pub(crate) fn hear_at(
    receivers: &mut [Receiver],
    receiver: u16,
    moment: u64,
    datagram: &[u8],
) -> CompactReply
    ensures reply { (w : World) (past : List EventData) → AllHear receivers.old w past
        → result ≡ option_map_or reply.Skipped (no_receiver_at w receiver)
        (datagram_reply w receiver past moment datagram.now) }
    ensures hear { (w : World) (past : List EventData) (e : EventData)
        → AllHear receivers.old w past → e.moment ≡ moment
        → ((r : ℕ) → datagram_to w r past e.what
        ≡ (if receiver == r then Some datagram.now else None))
        → AllHear receivers.new w (unless_skipped (no_receiver_at w receiver) e past) }
{
    let r = usize::from(receiver);
    if r >= receivers.len() {
        return CompactReply(Kept::Skipped(Skip::NoReceiver));
    }
    datagram_reply(receivers[r].take(moment, datagram))
}

// The slots of a receiver. It is called, so that no other event waits for its frame to be cleared.
#[inline(never)]
pub(crate) fn show_at(
    alloc: Global,
    receivers: &[Receiver],
    receiver: u16,
    moment: u64,
) -> Result<CompactReply, AllocError>
    requires { AllBy receivers.now moment }
    ensures { IfOk result (λ r. (w : World) (past : List EventData) → AllHear receivers.now w past
        → r ≡ option_map_or reply.Skipped (lack_skip w past (Show receiver))
        (event_reply w past moment (Show receiver))) }
{
    let r = usize::from(receiver);
    if r >= receivers.len() {
        return Ok(CompactReply(Kept::Skipped(Skip::NoReceiver)));
    }
    let mut slots = [0; 512];
    receivers[r].slots(moment, &mut slots);
    let slots = Box::new(alloc, slots)?;
    Ok(CompactReply(Kept::Shown(slots)))
}

// A packet of a console reaches a receiver.
pub(crate) fn deliver_at<F: Fader>(
    stages: &[Stage<F>],
    receivers: &mut [Receiver],
    moment: u64,
    handover: Handover,
) -> CompactReply
    requires { Holds stages.now (hands_over handover) }
    ensures reply { (w : World) (past : List EventData) → ConsolesStand
        (StageStands F.stands_for) stages.now w past → AllTell LinkTells stages.now
        → AllHear receivers.old w past
        → result ≡ option_map_or reply.Skipped (lack_skip w past (hands_over handover))
        (event_reply w past moment (hands_over handover)) }
    ensures hear { (w : World) (past : List EventData) → ConsolesStand
        (StageStands F.stands_for) stages.now w past → AllTell LinkTells stages.now
        → AllHear receivers.old w past
        → AllHear receivers.new w (unless_skipped (lack_skip w past (hands_over handover))
        (record { moment = moment; what = hands_over handover }) past) }
{
    let i = usize::from(handover.console);
    if i >= stages.len() {
        return CompactReply(Kept::Skipped(Skip::NoConsole));
    }
    if usize::from(handover.receiver) >= receivers.len() {
        return CompactReply(Kept::Skipped(Skip::NoReceiver));
    }
    let Some(bytes) = stages[i].datagram(handover.universe, handover.k) else {
        return CompactReply(Kept::Skipped(Skip::NotSent));
    };
    hear_at(receivers, handover.receiver, moment, bytes)
}
