use crate::network_lines::find_network;
use crate::screen::Screen;
use cmd_faults::RunFault;
use cmd_words::Night;
use night_lines::{MainNight, Recording};
use night_opening::{NightAtStart, is_interruptible, night_start_lines};
use std::cell::RefCell;
use std::env;
use system_devices::Network;

// Set where control-C and a closed window are ignored.
const INTERRUPTS: &str = "CUEPLAYER_INTERRUPTS";

/// What is told of a night at its start: a line each.
#[derive(Clone, Copy)]
pub struct StartLines<'w, 's, 'n> {
    pub night: &'w Night,
    pub show: &'s [u8],
    pub network: &'n RefCell<Network>,
    pub recorded: Option<Recording<'w>>,
    pub followed: Option<MainNight<'n>>,
}

impl StartLines<'_, '_, '_> {
    /// Tells what the night plays, where it is sent, where it is recorded, whom it follows and what
    /// ends it; nothing while the network is borrowed to change.
    ///
    /// # Errors
    ///
    /// `Show`, `Base` or `Memory`. Then nothing is told.
    pub fn tell(&self, rt: &HostRuntime, screen: &mut Screen) -> Result<(), RunFault> {
        let Ok(network) = self.network.try_borrow() else {
            return Ok(());
        };
        let found = find_network(rt, &network, self.night.interface.is_some());
        let night = NightAtStart {
            night: self.night,
            show: self.show,
            paths: network.paths(),
            recording: self.recorded,
            main: self.followed,
            is_interruptible: is_interruptible(&env::var(rt, INTERRUPTS))?,
        };
        let lines = night_start_lines(rt.alloc(), &night, &found)?;
        for line in lines.as_slice() {
            screen.tell(line.bytes.as_slice());
        }
        Ok(())
    }
}
