ghost use Rattle.std.specs.Prelude.{◌≡◌, ◌++◌, ◌∷◌, [], map, false, OnOk};
ghost use Rattle.wire_world.specs.Sends.{row_send, sends_of};

use crate::row::Row;
use arrayvec::ArrayVec;
use devices::{Link, LinkFault};
use std::alloc::{AllocError, Global};
use std::marker::Model;

/// The memory of packets that were let go, for those to come: of as many as one tick sends.
pub type Spare = ArrayVec<Vec<u8>, 16, Global>;

/// The packets of a tick of one console, and a link that keeps them. It fails no send, and stops
/// telling where memory for a packet is refused.
#[derive(Debug, Drop)]
pub struct Packets {
    /// The packets, the first first.
    pub rows: Vec<Row>,
    /// Memory for a packet was refused.
    pub full: bool,
    /// What the next packets are kept in.
    pub spare: Spare,
}

impl Model for Packets {
    ghost use Rattle.wire_world.specs.Sends.{SendStore};

    ghost Value = { SendStore };

    ghost view = { λ a. record { rows = a.rows.items; full = a.full } };
}

impl Packets {
    /// No packet yet.
    pub fn new(alloc: Global) -> Self
        ensures rows { result.rows ≡ [] }
        ensures full { result.full ≡ false }
    {
        Packets {
            rows: Vec::new(alloc),
            full: false,
            spare: Spare::new_in(alloc),
        }
    }
}

// Keeps a packet.
fn keep(
    rows: &mut Vec<Row>,
    spare: &mut Spare,
    universe: u16,
    packet: &[u8],
) -> Result<(), AllocError>
    ensures { OnOk result (map row_send rows.new.items ≡ map row_send rows.old.items
        ++ record { universe = universe; bytes = packet.now; failed = false } ∷ []) }
{
    let mut bytes = match spare.pop() {
        Some(bytes) => bytes,
        None => Vec::new(*rows.allocator()),
    };
    bytes.clear();
    bytes.extend_from_slice(packet)?;
    rows.push(Row { universe, bytes })?;
    Ok(())
}

impl Link for Packets {
    ghost tells = { λ kept. kept.full ≡ false };

    ghost offered = { sends_of };

    fn send(&mut self, universe: u16, bytes: &[u8]) -> Result<(), LinkFault> {
        if keep(&mut self.rows, &mut self.spare, universe, bytes).is_err() {
            self.full = true;
        }
        Ok(())
    }
}
