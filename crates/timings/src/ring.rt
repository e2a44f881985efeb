use crate::packets::{Packet, SLOTS};
use sacn_source::{Link, LinkFault};
use std::alloc::{AllocError, Global};

// The packets that a ring keeps.
const KEPT: usize = 64;

/// A link in memory that keeps the last 64 packets. It does not tell what it was offered.
#[derive(Drop)]
pub struct Ring {
    packets: Vec<Packet>,
    next: usize,
}

impl Ring {
    /// A ring of packets of zeros.
    pub fn new(alloc: Global) -> Result<Ring, AllocError> {
        let mut packets = Vec::with_capacity(alloc, KEPT)?;
        for _ in 0..KEPT {
            packets.push([0; 638])?;
        }
        Ok(Ring { packets, next: 0 })
    }

    /// The sum of the slots of all packets.
    pub fn sum_of_slots(&self) -> u64 {
        let mut sum = 0u64;
        for packet in self.packets.as_slice() {
            for slot in &packet[SLOTS..] {
                sum = sum.wrapping_add(u64::from(*slot));
            }
        }
        sum
    }
}

impl Link for Ring {
    fn send(&mut self, _universe: u16, bytes: &[u8]) -> Result<(), LinkFault> {
        match self.packets.get_mut(self.next) {
            Some(packet) if packet.len() == bytes.len() => packet.copy_from_slice(bytes),
            _ => return Err(LinkFault),
        }
        self.next = self.next.wrapping_add(1) % KEPT;
        Ok(())
    }
}
