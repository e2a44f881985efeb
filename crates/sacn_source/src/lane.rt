ghost use Rattle.std.specs.Prelude.{◌≡◌, ◌<◌, ◌≤◌, ◌+◌, ◌^◌, ◌%◌, ◌∷◌, ◌++◌, [], ℕ, suc, Bool};
ghost use Rattle.std.specs.Prelude.{List, length, not, nat_eq};
ghost use Rattle.std.specs.Cmp.Lexicographic.{pointwise};
ghost use Rattle.sacn_packet.specs.Wire.{Fields, IsData};
ghost use Rattle.sacn_source.specs.Identity.{Identity as Who};
ghost use Rattle.sacn_source.specs.Offering.{Answers, Offers, answer_of};
ghost use Rattle.sacn_source.specs.Stands.{LaneStands};
ghost use Rattle.sacn_source.specs.Stream.{Offer, due_packet, last_packet, packets};

use crate::identity::Identity;
use crate::offered::Offered;
use crate::pace::Pace;
use devices::Link;
use sacn_packet::{Slots, encode, refill, renumber, slots_in};
use std::marker::Model;

// Options: Stream_Terminated.
const TERMINATED: u8 = 0x40;

/// The stream of one universe. Its packet is kept, so that an offer writes only what changes.
#[derive(Debug, Drop)]
pub struct Lane {
    universe: u16,
    packet: [u8; 638],
    pace: Pace,
}

impl Model for Lane {
    ghost use Rattle.sacn_source.specs.Kept as kept;

    ghost Value = { kept.Lane };

    ghost view = { λ a. record { universe = a.universe; packet = a.packet; pace = a.pace } };
}

impl Lane {
    /// The stream of a universe, 1 to 63999, before the first offer.
    pub fn new(who: &Identity, universe: u16) -> Lane
        requires from_1 { 1 ≤ universe }
        requires to_63999 { universe ≤ 63999 }
        ensures universe { result.universe ≡ universe }
        ensures stands { LaneStands who.now result [] 0 }
    {
        let mut packet = [0; 638];
        encode(&who.header(universe), &[0; 512], &mut packet);
        Lane {
            universe,
            packet,
            pace: Pace::new(),
        }
    }

    /// How many packets there were, terminations and lost ones too.
    pub fn packets_sent(&self) -> u64
        ensures value { result ≡ self.now.pace.sent }
        ensures below { result < 2 ^ 48 + 4 }
    {
        self.pace.packets_sent()
    }

    /// Offers a frame, and sends it where a packet is due.
    pub fn offer<L: Link>(&mut self, moment: u64, slots: &Slots, link: &mut L) -> Offered
        requires later { self.old.pace.earliest ≤ moment }
        requires below { moment < 2 ^ 48 }
        requires live { self.old.pace.ended ≡ 0 }
        ensures universe { self.new.universe ≡ self.old.universe }
        ensures stands { (who : Who) (offers : List Offer) → LaneStands who self.old offers 0 →
            LaneStands who self.new (record { moment = moment; frame = slots.now } ∷ offers) 0 }
        ensures answer { (who : Who) (offers : List Offer) → LaneStands who self.old offers 0 →
            Answers (length (packets offers 0))
            (due_packet (record { moment = moment; frame = slots.now } ∷ offers)) result }
        ensures told { L.tells link.new → L.tells link.old }
        ensures offered { (who : Who) (offers : List Offer) → LaneStands who self.old offers 0 →
            L.tells link.new → Offers who self.old.universe (length (packets offers 0))
            (due_packet (record { moment = moment; frame = slots.now } ∷ offers))
            result (L.offered link.old) (L.offered link.new) }
        ensures earliest { self.new.pace.earliest ≡ moment + 1 }
        ensures ended { self.new.pace.ended ≡ self.old.pace.ended }
    {
        let place = self.pace.packets_sent();
        let differs = replace_slots(&mut self.packet, slots);
        if self.pace.take_offer(differs, moment) {
            send(self.universe, &mut self.packet, place, 0, link)
        } else {
            Offered::Quiet
        }
    }

    /// Sends one termination.
    pub fn terminate<L: Link>(&mut self, link: &mut L) -> Offered
        requires fewer { self.old.pace.ended < 3 }
        ensures universe { self.new.universe ≡ self.old.universe }
        ensures stands { (who : Who) (offers : List Offer) (n : ℕ) →
            LaneStands who self.old offers n → LaneStands who self.new offers (suc n) }
        ensures answer { (who : Who) (offers : List Offer) (n : ℕ) →
            LaneStands who self.old offers n →
            Answers (length (packets offers n)) (Some last_packet) result }
        ensures told { L.tells link.new → L.tells link.old }
        ensures offered { (who : Who) (offers : List Offer) (n : ℕ) →
            LaneStands who self.old offers n → L.tells link.new →
            Offers who self.old.universe (length (packets offers n)) (Some last_packet)
            result (L.offered link.old) (L.offered link.new) }
        ensures earliest { self.new.pace.earliest ≡ self.old.pace.earliest }
        ensures ended { self.new.pace.ended ≡ self.old.pace.ended + 1 }
    {
        let place = self.pace.packets_sent();
        refill(&mut self.packet, &[0; 512]);
        self.pace.take_termination();
        send(self.universe, &mut self.packet, place, TERMINATED, link)
    }
}

// Gives the packet these slots, and answers whether it had others.
fn replace_slots(packet: &mut [u8; 638], slots: &Slots) -> bool
    ensures differs { (fields : Fields) (old : List ℕ) → IsData packet.old fields old →
        result ≡ not (pointwise nat_eq slots.now old) }
    ensures packet { (fields : Fields) (old : List ℕ) → IsData packet.old fields old →
        IsData packet.new fields slots.now }
{
    if slots.as_slice() == slots_in(packet) {
        return false;
    }
    refill(packet, slots);
    true
}

// Sends the packet under the number of this place in the stream.
fn send<L: Link>(
    universe: u16,
    packet: &mut [u8; 638],
    place: u64,
    options: u8,
    link: &mut L,
) -> Offered
    ensures packet { (fields : Fields) (slots : List ℕ) → IsData packet.old fields slots →
        IsData packet.new (record fields { sequence = place % 256; options = options }) slots }
    ensures answer { (failed : Bool) × (result ≡ answer_of failed place) }
    ensures told { L.tells link.new → L.tells link.old }
    ensures offered { L.tells link.new → (failed : Bool) × (result ≡ answer_of failed place)
        × (L.offered link.new ≡ L.offered link.old
        ++ record { universe = universe; bytes = packet.new; failed = failed } ∷ []) }
{
    let number = (place % 256) as u8;
    renumber(packet, number, options);
    match link.send(universe, packet.as_slice()) {
        Ok(()) => Offered::Sent(number),
        Err(_) => Offered::Lost(number),
    }
}
