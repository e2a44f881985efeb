ghost use Rattle.std.specs.Prelude.{◌≡◌, IfOk};

use crate::cards::open_network;
use cmd_words::Night;
use remarks::JobFault;
use std::cell::RefCell;
use system_devices::{CidLock, Network};

/// The network of a live night, with the lock of the CID under which its packets leave. So none
/// leaves before that was asked for, nor once it is let go.
#[derive(Drop)]
pub struct LockedNetwork {
    network: RefCell<Network>,
    /// The last field: it is let go behind the sockets.
    pub lock: CidLock,
}

impl LockedNetwork {
    /// Opens the sockets of a night, and holds the lock as long as they are open.
    ///
    /// # Errors
    ///
    /// As those of [`open_network`].
    pub fn open(rt: &HostRuntime, night: &Night, lock: CidLock) -> Result<Self, JobFault>
        ensures cid { IfOk result (λ network. network.lock.cid ≡ lock.cid) }
    {
        match open_network(rt, night, true) {
            Ok(network) => Ok(LockedNetwork {
                network: RefCell::new(network),
                lock,
            }),
            Err(fault) => Err(fault),
        }
    }

    /// What is sent to and watched.
    pub fn shared(&self) -> &RefCell<Network> {
        &self.network
    }
}
