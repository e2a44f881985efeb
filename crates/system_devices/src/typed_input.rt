ghost use Rattle.std.specs.Prelude.{[]};

use crate::descriptor_poll::DescriptorPoll;
use crate::fault::DeviceFault;
use devices::LinkFault;
use live_machine::{Came, MachineInput};
use mio::Interest;
use std::io::{IsTerminal, Read};
use std::os::fd::AsRawFd;

/// Standard input as a machine's. It does not tell what was typed.
#[derive(Drop)]
pub struct TypedInput<'a> {
    rt: &'a HostRuntime,
    poll: DescriptorPoll,
}

impl<'a> TypedInput<'a> {
    /// Standard input has to be asked for first of all: where it is closed, its descriptor would
    /// be that of whatever is opened next.
    ///
    /// # Errors
    ///
    /// `Device` where standard input is closed or cannot be waited for; `Memory` if an allocation
    /// failed.
    pub fn open(rt: &'a HostRuntime) -> Result<Self, DeviceFault> {
        match DescriptorPoll::open(rt, rt.stdin().as_raw_fd(), Interest::READABLE) {
            Ok(poll) => Ok(TypedInput { rt, poll }),
            Err(error) => Err(DeviceFault::of_system("standard input", error)),
        }
    }
}

impl MachineInput for TypedInput<'_> {
    ghost tells = { λ _. ⊥ };

    ghost waits = { λ _. [] };

    fn wait(&mut self, milliseconds: u64, block: &mut [u8; 4096]) -> Result<Came, LinkFault> {
        let is_ready = self.poll.is_ready(milliseconds).map_err(|_| LinkFault)?;
        if !is_ready {
            return Ok(Came::Nothing);
        }
        let read = match self.rt.stdin().read(block) {
            Ok(count) => Ok(count.min(block.len())),
            Err(error) => Err(error.kind()),
        };
        let came = Came::of_read(read, self.rt.stdin().is_terminal());
        if came == Came::End {
            self.poll.end();
        }
        Ok(came)
    }
}
