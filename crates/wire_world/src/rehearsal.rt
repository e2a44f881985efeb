ghost use Rattle.std.specs.Prelude.{◌≡◌, ◌≤◌, length, IfOk, OnOk, IsTrue};
ghost use Rattle.wire_world.specs.Promised.{AnswersAlone, IsRehearsed, ShowsMeaning, ShowsMerge};
ghost use Rattle.wire_world.specs.Promised.{ShowsOnePacket, ShowsUnpatchedAsZero};
ghost use Rattle.wire_world.specs.Refusing.{AnswersSetup, are_within, setup_fault};
ghost use Rattle.wire_world.specs.Replies.{AreReplies, events_done, last_slots};
ghost use Rattle.wire_world.specs.Stands.{world_of};
ghost use Rattle.wire_world.specs.Widened.{happenings};
ghost use Rattle.wire_world.specs.World.{IsWorld};

use crate::happening::widened;
use crate::perform::perform;
use crate::setup::check;
use crate::{CompactReport, Event, Fault, Happening, Report, Setup};
use fade_core::Fader;
use show_core::Show;
use std::alloc::{AllocError, Global};

/// Carries out the events, one after another, among one to four consoles, each with one of the
/// shows, and at most eight receivers, each of a universe of its own, 1 to 63999. Loss is a packet
/// that no event delivers. Each Stray has `from <= to`, and `to` at most the length of `strays`.
///
/// A receiver shows, in a reply and at the end, what one console's show means at its latest tick,
/// where no one else was heard on its universe, losses, repeats and reorderings stayed in the
/// window, and the newest packet sent first arrived less than 2,500 ms ago. Of several consoles
/// with CIDs of their own it shows the merge, and none changes what it answers to another.
///
/// # Errors
///
/// The first reason of [`Fault`] that applies; then nothing is rehearsed. `Memory` if an allocation
/// failed. A reply takes over 512 bytes: [`rehearse_compactly`] answers a long list in less room.
pub fn rehearse<F: Fader>(
    alloc: Global,
    shows: &[Show],
    consoles: &[Setup],
    receivers: &[u16],
    events: &[Event],
    strays: &[u8],
) -> Result<Report, Fault>
    requires within { IsTrue (are_within (length strays.now) (happenings events.now)) }
    ensures faults { AnswersSetup (setup_fault shows.now consoles.now receivers.now) result }

    // Each console's universes have numbers, and whoever sends for one is a source of E1.31.
    ensures world { OnOk result (IsWorld
        (world_of shows.now consoles.now receivers.now strays.now)) }
    ensures few { let w = world_of shows.now consoles.now receivers.now strays.now in
        OnOk result (length w.consoles ≤ 4) }

    ensures replies { let w = world_of shows.now consoles.now receivers.now strays.now in
        IfOk result (λ report. AreReplies w (happenings events.now) report.replies) }
    ensures last { let w = world_of shows.now consoles.now receivers.now strays.now in
        IfOk result (λ report. report.last
        ≡ last_slots w (events_done w (happenings events.now))) }

    // The promise.
    ensures headline { let w = world_of shows.now consoles.now receivers.now strays.now in
        IfOk result (ShowsMeaning w (happenings events.now)) }
    ensures unpatched { let w = world_of shows.now consoles.now receivers.now strays.now in
        IfOk result (ShowsUnpatchedAsZero w (happenings events.now)) }
    ensures window_law { let w = world_of shows.now consoles.now receivers.now strays.now in
        IfOk result (ShowsOnePacket w (happenings events.now)) }
    ensures merge_law { let w = world_of shows.now consoles.now receivers.now strays.now in
        IfOk result (ShowsMerge w (happenings events.now)) }
    ensures independent { let w = world_of shows.now consoles.now receivers.now strays.now in
        IfOk result (AnswersAlone w (happenings events.now)) }
{
    // The setup is looked at before memory is asked for.
    check(shows, consoles, receivers)?;
    let Ok(events) = widened(alloc, events) else {
        return Err(Fault::Memory);
    };
    let events = events.as_slice();
    let compact = rehearse_compactly::<F>(alloc, shows, consoles, receivers, events, strays)?;
    match compact.report(alloc) {
        Ok(report) => Ok(report),
        Err(AllocError) => Err(Fault::Memory),
    }
}

/// The same of the events of a script, with each reply in little room. All that is promised of
/// [`rehearse`] holds.
///
/// # Errors
///
/// As of [`rehearse`].
pub fn rehearse_compactly<F: Fader>(
    alloc: Global,
    shows: &[Show],
    consoles: &[Setup],
    receivers: &[u16],
    events: &[Happening],
    strays: &[u8],
) -> Result<CompactReport, Fault>
    requires within { IsTrue (are_within (length strays.now) events.now) }
    ensures faults { AnswersSetup (setup_fault shows.now consoles.now receivers.now) result }
    ensures rehearsed { let w = world_of shows.now consoles.now receivers.now strays.now in
        IfOk result (IsRehearsed w events.now) }
{
    check(shows, consoles, receivers)?;
    match perform::<F>(alloc, shows, consoles, receivers, events, strays) {
        Ok(report) => Ok(report),
        Err(AllocError) => Err(Fault::Memory),
    }
}
