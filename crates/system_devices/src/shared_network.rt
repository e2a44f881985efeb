ghost use Rattle.std.specs.Prelude.{[]};

use crate::network::Network;
use devices::LinkFault;
use std::cell::RefCell;
use targets::{Address, Sender};

/// The network of a night, as its packets are sent. It does not tell what it was offered.
#[derive(Drop)]
pub struct SharedNetwork<'a> {
    rt: &'a HostRuntime,
    network: &'a RefCell<Network>,
}

impl<'a> SharedNetwork<'a> {
    pub fn new(rt: &'a HostRuntime, network: &'a RefCell<Network>) -> SharedNetwork<'a> {
        SharedNetwork { rt, network }
    }
}

impl Sender for SharedNetwork<'_> {
    ghost tells = { λ _. ⊥ };

    ghost offered = { λ _. [] };

    fn begin(&mut self, _universe: u16, _bytes: &[u8]) {
        if let Ok(mut network) = self.network.try_borrow_mut() {
            network.begin_packet(self.rt);
        }
    }

    fn send_to(&mut self, to: Address, bytes: &[u8]) -> Result<(), LinkFault> {
        match self.network.try_borrow_mut() {
            Ok(mut network) => network.send(self.rt, to, bytes).map_err(|_| LinkFault),
            Err(_) => Err(LinkFault),
        }
    }
}
