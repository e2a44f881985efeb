ghost use Rattle.std.specs.Prelude.{◌≡◌, ◌⊎◌, ◌==◌, ◌++◌, ◌∷◌, [], ◌+◌, ◌-◌, ◌≤◌, ℕ, List};
ghost use Rattle.std.specs.Prelude.{if◌then◌else◌, find, map, slice_get, take, OnOk};
ghost use Rattle.std.specs.List.{position};
ghost use Rattle.std.specs.Option.{option_map};
ghost use Rattle.wire_world.specs.Sends.{row_send, sent_to};
ghost use Rattle.wire_world.specs.Shelves.{IsRest, KeepsFrom, gone_of, shelf_packets};

use crate::packets::Spare;
use crate::queue::Queue;
use crate::row::Row;
use crate::shelf::Shelf;
use std::alloc::{AllocError, Global};

// Moves packets to the shelves of their universes, of each universe none behind packet `last`.
pub(crate) fn keep_all(
    alloc: Global,
    shelves: &mut Vec<Shelf>,
    last: u64,
    rows: &mut Vec<Row>,
    spare: &mut Spare,
) -> Result<(), AllocError>
    ensures rest { OnOk result ((u : ℕ) (all : List (List ℕ))
        → IsRest (gone_of shelves.old.items u) (shelf_packets shelves.old.items u)
        (take (last + 1) all)
        → IsRest (gone_of shelves.new.items u) (shelf_packets shelves.new.items u)
        (take (last + 1) (all ++ sent_to u (map row_send rows.old.items)))) }
    ensures gone { OnOk result ((u : ℕ) → gone_of shelves.new.items u
        ≡ gone_of shelves.old.items u) }
    ensures empty { rows.new.items ≡ [] }
{
    for row in rows.drain(..) {
        keep(alloc, shelves, last, row, spare)?;
    }
    Ok(())
}

// Puts a packet on the shelf of its universe, where it is none behind packet `last`.
fn keep(
    alloc: Global,
    shelves: &mut Vec<Shelf>,
    last: u64,
    row: Row,
    spare: &mut Spare,
) -> Result<(), AllocError>
    ensures rest { OnOk result ((u : ℕ) (all : List (List ℕ))
        → IsRest (gone_of shelves.old.items u) (shelf_packets shelves.old.items u)
        (take (last + 1) all)
        → IsRest (gone_of shelves.new.items u) (shelf_packets shelves.new.items u)
        (take (last + 1) (if row.universe == u then all ++ row.bytes.items ∷ [] else all))) }
    ensures gone { OnOk result ((u : ℕ) → gone_of shelves.new.items u
        ≡ gone_of shelves.old.items u) }
{
    match place_of(shelves.as_slice(), row.universe) {
        Some(i) => shelves[i].keep(last, row.bytes, spare)?,
        None => {
            let mut packets = Queue::new(alloc);
            packets.push_back(row.bytes)?;
            shelves.push(Shelf {
                universe: row.universe,
                gone: 0,
                packets,
            })?;
        }
    }
    Ok(())
}

// Packet k of a universe, where it was sent.
pub(crate) fn packet(shelves: &[Shelf], universe: u16, k: u64) -> Option<&[u8]>
    requires { gone_of shelves.now universe ≤ k }
    ensures { option_map (λ bytes. bytes.now) result
        ≡ slice_get (shelf_packets shelves.now universe) (k - gone_of shelves.now universe) }
{
    let shelf = shelf_at(shelves, universe)?;
    shelf.packets.get((k - shelf.gone) as usize)
}

// Lets the packets of a universe go that are before packet `low`.
pub(crate) fn release(shelves: &mut [Shelf], universe: u16, low: u64, spare: &mut Spare)
    ensures rest { (u : ℕ) (all : List (List ℕ))
        → IsRest (gone_of shelves.old u) (shelf_packets shelves.old u) all
        → IsRest (gone_of shelves.new u) (shelf_packets shelves.new u) all }
    ensures gone { (u k : ℕ) → gone_of shelves.old u ≤ k → (universe ≡ u → low ≤ k)
        → gone_of shelves.new u ≤ k }
    ensures left { KeepsFrom shelves.new universe low }
{
    if let Some(i) = place_of(shelves, universe) {
        shelves[i].release(low, spare);
    }
}

// The shelf of a universe.
fn shelf_at(shelves: &[Shelf], universe: u16) -> Option<&Shelf>
    ensures { option_map (λ shelf. shelf.now) result
        ≡ find (λ shelf. shelf.universe == universe) shelves.now }
{
    shelves.iter().find(|shelf| shelf.universe == universe)
}

// Where the shelf of a universe stands.
fn place_of(shelves: &[Shelf], universe: u16) -> Option<usize>
    ensures { result ≡ position (λ shelf. shelf.universe == universe) shelves.now }
{
    shelves.iter().position(|shelf| shelf.universe == universe)
}

impl Shelf {
    // Keeps a packet more, where it is none behind packet `last`.
    fn keep(&mut self, last: u64, packet: Vec<u8>, spare: &mut Spare) -> Result<(), AllocError>
        ensures universe { OnOk result (self.new.universe ≡ self.old.universe) }
        ensures gone { OnOk result (self.new.gone ≡ self.old.gone) }
        ensures rest { OnOk result ((all : List (List ℕ))
            → IsRest self.old.gone self.old.packets (take (last + 1) all)
            → IsRest self.new.gone self.new.packets
            (take (last + 1) (all ++ packet.items ∷ []))) }
    {
        let kept = self.packets.len() as u64;
        if self.gone <= last && kept <= last - self.gone {
            self.packets.push_back(packet)?;
        } else {
            lay_by(spare, packet);
        }
        Ok(())
    }

    // Lets the packets before packet `low` go.
    fn release(&mut self, low: u64, spare: &mut Spare)
        ensures universe { self.new.universe ≡ self.old.universe }
        ensures rest { (all : List (List ℕ)) → IsRest self.old.gone self.old.packets all
            → IsRest self.new.gone self.new.packets all }
        ensures gone { (k : ℕ) → self.old.gone ≤ k → low ≤ k → self.new.gone ≤ k }
        ensures left { (self.new.packets ≡ []) ⊎ (low ≤ self.new.gone) }
    {
        for gone in self.gone..low {
            let Some(packet) = self.packets.pop_front() else {
                return;
            };
            self.gone = gone + 1;
            lay_by(spare, packet);
        }
    }
}

// Keeps the memory of a packet for one to come, where there is room.
fn lay_by(spare: &mut Spare, packet: Vec<u8>) {
    if !spare.is_full() {
        spare.push(packet);
    }
}
