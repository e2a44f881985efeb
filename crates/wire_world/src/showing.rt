ghost use Rattle.std.specs.Prelude.{◌≡◌, List, IfOk};
ghost use Rattle.wire_world.specs.declared.happening.Happening.{Happening as EventData};
ghost use Rattle.wire_world.specs.World.{World};
ghost use Rattle.wire_world.specs.Replies.{last_event_moment, last_slots};
ghost use Rattle.wire_world.specs.Stands.{AllBy, AllHear};

use sacn_receiver::Receiver;
use show_core::Frame;
use std::alloc::{AllocError, Global};

// The slots of all receivers at a moment.
pub(crate) fn show_all(
    alloc: Global,
    receivers: &[Receiver],
    moment: u64,
) -> Result<Vec<Frame>, AllocError>
    requires { AllBy receivers.now moment }
    ensures { IfOk result (λ shown. (w : World) (past : List EventData)
        → AllHear receivers.now w past → moment ≡ last_event_moment past
        → shown.items ≡ last_slots w past) }
{
    let mut shown = Vec::new(alloc);
    for i in 0..receivers.len() {
        let mut slots = [0; 512];
        receivers[i].slots(moment, &mut slots);
        shown.push(slots)?;
    }
    Ok(shown)
}
