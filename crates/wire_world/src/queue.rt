ghost use Rattle.std.specs.Prelude.{◌≡◌, ◌++◌, ◌∷◌, [], length, slice_get, None, OnOk};
ghost use Rattle.std.specs.Option.{option_map, option_to_list};

use std::alloc::{AllocError, Global};
use std::collections::VecDeque;
use std::marker::Model;

/// Packets, the first first. Each has memory of its own, so that what one that goes leaves is that
/// of the next.
#[derive(Debug, Drop)]
pub struct Queue {
    packets: VecDeque<Vec<u8>>,
}

impl Model for Queue {
    ghost use Rattle.std.specs.Prelude.{ℕ, List, map};

    ghost Value = { List (List ℕ) };

    ghost view = { λ queue. map (λ packet. packet.items) queue.packets.items };
}

impl Queue {
    /// No packet yet.
    pub fn new(alloc: Global) -> Self
        ensures { result ≡ [] }
    {
        Queue {
            packets: VecDeque::new(alloc),
        }
    }

    /// How many there are.
    pub fn len(&self) -> usize
        ensures { result ≡ length self.now }
    {
        self.packets.len()
    }

    /// The packet at a place, the first at 0.
    pub fn get(&self, place: usize) -> Option<&[u8]>
        ensures { option_map (λ bytes. bytes.now) result ≡ slice_get self.now place }
    {
        let packet = self.packets.get(place)?;
        Some(packet.as_slice())
    }

    /// Puts a packet behind the others.
    pub fn push_back(&mut self, packet: Vec<u8>) -> Result<(), AllocError>
        ensures { OnOk result (self.new ≡ self.old ++ packet.items ∷ []) }
    {
        self.packets.push_back(packet)?;
        Ok(())
    }

    /// Takes the first packet away.
    pub fn pop_front(&mut self) -> Option<Vec<u8>>
        ensures packets { self.old ≡ option_to_list (option_map (λ packet. packet.items) result)
            ++ self.new }
        ensures none { result ≡ None → self.new ≡ [] }
    {
        self.packets.pop_front()
    }
}
