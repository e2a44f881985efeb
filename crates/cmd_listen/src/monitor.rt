use crate::ignored::{Counts, NONE, count, ignored_place, tell_counts};
use crate::instant::Instant;
use crate::news::push_changes;
use crate::sources::{Sources, here, sources_with};
use crate::text::{Head, push_head};
use sacn_packet::laws::front;
use sacn_packet::{Slots, parse};
use sacn_receiver::{Receiver, slots_line};
use std::alloc::AllocError;

/// A universe that is watched.
#[derive(Debug, Drop)]
pub struct Monitor {
    pub receiver: Receiver,
    pub universe: u16,
    pub sources: Sources,
    /// What was ignored and not told of yet.
    pub counts: Counts,
    /// The slots that were told last.
    pub slots: Slots,
}

impl Monitor {
    ghost use Rattle.std.specs.Prelude.{◌≡◌, ◌≤◌, ℕ, ◌++◌, OnOk, codes};
    ghost use Rattle.sacn_packet.specs.Reading.{front_packet};
    ghost use Rattle.sacn_packet.specs.Wire.{HasPacket};
    ghost use Rattle.cmd_listen.specs.Sources.{changes};
    ghost use Rattle.cmd_listen.specs.Universe as spec;
    ghost use Rattle.cmd_listen.specs.Universe.{Knowledge};
    ghost use Rattle.cmd_listen.specs.Stands.{MonitorStands};

    // A monitor of a universe of which nothing came.
    pub fn new(universe: u16) -> Monitor
        requires from_1 { 1 ≤ universe }
        requires to_63999 { universe ≤ 63999 }
        ensures { MonitorStands 0 result (spec.new_known universe) }
    {
        Monitor {
            receiver: Receiver::new(universe),
            universe,
            sources: Sources::new(),
            counts: NONE,
            slots: [0; 512],
        }
    }

    // Takes a line: the clock, then a datagram that is for the universe, then a look where it is
    // time.
    pub fn take(
        &mut self,
        instant: Instant,
        datagram: &[u8],
        text: &mut Vec<u8>,
    ) -> Result<(), AllocError>
        ensures { OnOk result
            ((t : ℕ) (k : Knowledge) → MonitorStands t self.old k → t ≤ instant.moment
            → MonitorStands instant.moment self.new (spec.known_after instant datagram.now k)
            × (text.new.items ≡ text.old.items ++ spec.told_text instant datagram.now k)) }
    {
        self.wait(instant, text)?;
        self.meet(instant, datagram, text)?;
        self.look(instant, text)
    }

    fn head(&self, moment: u64) -> Head
        ensures { result ≡ spec.head moment self.now.universe }
    {
        Head {
            moment,
            universe: self.universe,
        }
    }

    // Takes the clock: counts are told, and sources fall silent.
    fn wait(&mut self, instant: Instant, text: &mut Vec<u8>) -> Result<(), AllocError>
        ensures { OnOk result
            ((t : ℕ) (k : Knowledge) → MonitorStands t self.old k → t ≤ instant.moment
            → MonitorStands instant.moment self.new (spec.after_wait instant k)
            × (text.new.items ≡ text.old.items ++ spec.waited_text instant k)) }
    {
        tell_counts(text, instant, self.universe, &mut self.counts)?;
        let after = here(self.sources.as_slice(), instant.moment);
        let head = self.head(instant.moment);
        push_changes(
            text,
            head,
            b"gone",
            self.sources.as_slice(),
            after.as_slice(),
        )?;
        self.sources = after;
        Ok(())
    }

    // Meets a datagram, where it is for the universe.
    fn meet(
        &mut self,
        instant: Instant,
        datagram: &[u8],
        text: &mut Vec<u8>,
    ) -> Result<(), AllocError>
        ensures { OnOk result ((k : Knowledge) → MonitorStands instant.moment self.old k
            → MonitorStands instant.moment self.new (spec.met_after instant datagram.now k)
            × (text.new.items ≡ text.old.items ++ spec.told_met instant datagram.now k)) }
    {
        if instant.to != self.universe {
            return Ok(());
        }
        self.hand(instant.moment, datagram, text)
    }

    // Hands a datagram to the receiver.
    fn hand(&mut self, moment: u64, datagram: &[u8], text: &mut Vec<u8>) -> Result<(), AllocError>
        ensures { OnOk result ((k : Knowledge) → MonitorStands moment self.old k
            → MonitorStands moment self.new (spec.after_datagram moment datagram.now k)
            × (text.new.items ≡ text.old.items ++ spec.met_text moment datagram.now k)) }
    {
        match self.receiver.take(moment, datagram) {
            Ok(_) => self.keep(moment, datagram, text),
            Err(reason) => {
                count(&mut self.counts, ignored_place(datagram, reason));
                Ok(())
            }
        }
    }

    // Keeps the source of a packet that was taken.
    fn keep(&mut self, moment: u64, datagram: &[u8], text: &mut Vec<u8>) -> Result<(), AllocError>
        requires { HasPacket datagram.now (front_packet datagram.now) }
        ensures { OnOk result ((text.new.items ≡ text.old.items
            ++ changes (spec.head moment self.old.universe) (codes "ended")
            self.old.sources.items
            (spec.sources_with moment (front_packet datagram.now) self.old.sources.items))
            × (self.new ≡ record self.old { sources = self.new.sources })
            × (self.new.sources.items
            ≡ spec.sources_with moment (front_packet datagram.now) self.old.sources.items)) }
    {
        front();
        let packet = parse(datagram).unwrap();
        let after = sources_with(self.sources.as_slice(), moment, &packet);
        let head = self.head(moment);
        push_changes(
            text,
            head,
            b"ended",
            self.sources.as_slice(),
            after.as_slice(),
        )?;
        self.sources = after;
        Ok(())
    }

    // Looks at the slots where it is time.
    fn look(&mut self, instant: Instant, text: &mut Vec<u8>) -> Result<(), AllocError>
        ensures { OnOk result ((k : Knowledge) → MonitorStands instant.moment self.old k
            → MonitorStands instant.moment self.new (spec.looked_after instant k)
            × (text.new.items ≡ text.old.items ++ spec.told_looked instant k)) }
    {
        if !instant.looks {
            return Ok(());
        }
        self.show(instant.moment, text)
    }

    // Shows the slots, where they are others than those that were told last.
    fn show(&mut self, moment: u64, text: &mut Vec<u8>) -> Result<(), AllocError>
        ensures { OnOk result ((k : Knowledge) → MonitorStands moment self.old k
            → MonitorStands moment self.new (spec.after_look moment k)
            × (text.new.items ≡ text.old.items ++ spec.looked_text moment k)) }
    {
        let mut slots = [0; 512];
        // The clock is never behind the receiver: the later of both says so to `slots`.
        self.receiver
            .slots(moment.max(self.receiver.now()), &mut slots);
        if slots == self.slots {
            return Ok(());
        }
        self.slots = slots;
        push_head(text, self.head(moment))?;
        text.extend_from_slice(slots_line(&slots).as_str().as_bytes())
    }
}
