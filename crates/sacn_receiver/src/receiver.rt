ghost use Rattle.std.specs.Prelude.{◌≡◌, ◌≤◌, [], ◌∷◌, List, length, OnOk, OnErr, IfOk};
ghost use Rattle.std.specs.Result.{result_err};
ghost use Rattle.sacn_packet.specs.Wire.{HasPacket};
ghost use Rattle.sacn_packet.specs.Reading.{front_packet};
ghost use Rattle.sacn_receiver.specs.Source.{Entry, last_moment};
ghost use Rattle.sacn_receiver.specs.Taking.{answer, accepted_entry, history_after, ignored_packet};
ghost use Rattle.sacn_receiver.specs.Taking.{off_reason};
ghost use Rattle.sacn_receiver.specs.Places.{AreDistinct, IsPlace};
ghost use Rattle.sacn_receiver.specs.Records.{entries};
ghost use Rattle.sacn_receiver.specs.Shown.{live, shown_slots};
ghost use Rattle.sacn_receiver.specs.Kept.{StandsFor};

use crate::answer::{Ignored, Taken};
use crate::live::{count_live, merge};
use crate::places::{keep_at, place_for};
use crate::record::{Record, is_termination};
use arrayvec::ArrayVec;
use sacn_packet::{DataPacket, Slots, parse};
use std::marker::Model;

/// The most sources that a receiver keeps at a time.
pub const SOURCES: usize = 4;

const PREVIEW_DATA: u8 = 0x80;

/// A receiver of one universe. Moments are in milliseconds, from any beginning.
#[derive(Debug, Drop)]
pub struct Receiver {
    universe: u16,
    latest: u64,
    records: ArrayVec<Record, SOURCES>,
}

impl Model for Receiver {
    ghost use Rattle.sacn_receiver.specs.Kept.{ReceiverState};

    ghost Value = { ReceiverState };

    ghost use Rattle.sacn_receiver.specs.Inside.{receiver_view, IsReceiver};

    ghost view = { receiver_view };

    ghost invariant = { IsReceiver };
}

impl Receiver {
    /// A receiver of a universe, 1 to 63999, that has accepted nothing yet.
    pub fn new(universe: u16) -> Receiver
        requires from_1 { 1 ≤ universe }
        requires to_63999 { universe ≤ 63999 }
        ensures stands { StandsFor result [] }
        ensures universe { result.universe ≡ universe }
    {
        Receiver {
            universe,
            latest: 0,
            records: ArrayVec::new(),
        }
    }

    /// Takes a datagram that came at `moment`. Its packet, where it is accepted, takes the place of
    /// the one kept of its source.
    ///
    /// # Errors
    ///
    /// The first reason of `Ignored` that applies: then nothing changes.
    pub fn take(&mut self, moment: u64, datagram: &[u8]) -> Result<Taken, Ignored>
        ensures answer { (h : List Entry) → StandsFor self.old h
            → result ≡ answer 4 self.old.universe h moment datagram.now }
        ensures heard { (h : List Entry) → StandsFor self.old h
            → StandsFor self.new (history_after 4 self.old.universe h moment datagram.now) }
        ensures accepted { OnOk result ((h : List Entry) → StandsFor self.old h
            → StandsFor self.new (accepted_entry moment (front_packet datagram.now) ∷ h)) }
        ensures packet { OnOk result (HasPacket datagram.now (front_packet datagram.now)) }
        ensures universe { self.new.universe ≡ self.old.universe }
        ensures ignored { OnErr result (self.new ≡ self.old) }
    {
        if moment < self.latest {
            return Err(Ignored::Backwards);
        }
        let packet = parse(datagram)?;
        let place = accept(self.universe, self.records.as_slice(), moment, &packet)?;
        keep_at(&mut self.records, place, moment, &packet);
        self.latest = moment;
        Ok(Taken {
            sequence: packet.sequence(),
            terminated: is_termination(&packet),
        })
    }

    /// Writes the levels of the 512 slots at `moment`: of the live sources, those of the greatest
    /// priority, and of these the greatest level, slot by slot; zeros where no source is live.
    pub fn slots(&self, moment: u64, out: &mut Slots)
        requires { self.now.latest ≤ moment }
        ensures { (h : List Entry) → StandsFor self.now h → out.new ≡ shown_slots h moment }
    {
        merge(self.records.as_slice(), moment, out);
    }

    /// How many sources are live at `moment`: less than 2,500 ms ago a packet of theirs was
    /// accepted, and it was no termination.
    pub fn live(&self, moment: u64) -> usize
        requires { self.now.latest ≤ moment }
        ensures { (h : List Entry) → StandsFor self.now h → result ≡ length (live h moment) }
    {
        count_live(self.records.as_slice(), moment)
    }

    /// The moment of the last packet accepted, 0 before the first.
    pub fn now(&self) -> u64
        ensures latest { result ≡ self.now.latest }
        ensures last { (h : List Entry) → StandsFor self.now h → result ≡ last_moment h }
    {
        self.latest
    }
}

// The place for a packet that is heard, and that the source rule accepts.
fn accept(
    universe: u16,
    records: &[Record],
    moment: u64,
    packet: &DataPacket,
) -> Result<usize, Ignored>
    requires apart { AreDistinct (entries records.now) }
    requires room { length records.now ≤ 4 }
    ensures place { IfOk result (λ place.
        IsPlace (entries records.now) moment packet.now.fields.cid place) }
    ensures refused { result_err result
        ≡ ignored_packet 4 universe (entries records.now) moment packet.now }
{
    hear(universe, packet)?;
    place_for(records, moment, &packet.cid(), packet.sequence())
}

// Why a packet is not heard on a universe, if it is not.
fn hear(universe: u16, packet: &DataPacket) -> Result<(), Ignored>
    ensures { result_err result ≡ off_reason universe packet.now }
{
    if packet.universe() != universe {
        Err(Ignored::OtherUniverse)
    } else if packet.options() & PREVIEW_DATA != 0 {
        Err(Ignored::Preview)
    } else if packet.start() != 0 && !is_termination(packet) {
        Err(Ignored::AltStart)
    } else {
        Ok(())
    }
}
