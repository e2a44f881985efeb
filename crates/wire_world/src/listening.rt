ghost use Rattle.std.specs.Prelude.{◌≤◌, length, IfOk, All};
ghost use Rattle.wire_world.specs.Stands.{AreListening};

use sacn_receiver::Receiver;
use std::alloc::{AllocError, Global};

// A receiver of each universe.
pub(crate) fn listen_all(alloc: Global, universes: &[u16]) -> Result<Vec<Receiver>, AllocError>
    requires { All (λ u. (1 ≤ u) × (u ≤ 63999)) universes.now }
    ensures { IfOk result (λ receivers. AreListening receivers.items universes.now
        (length universes.now)) }
{
    let mut receivers = Vec::new(alloc);
    for i in 0..universes.len() {
        let receiver = Receiver::new(universes[i]);
        receivers.push(receiver)?;
    }
    Ok(receivers)
}
