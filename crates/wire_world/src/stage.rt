ghost use Rattle.std.specs.Prelude.{◌≡◌, ◌↔◌, ℕ, List, [], ◌∷◌, map, IfOk, OnOk, OnErr, Err};
ghost use Rattle.std.specs.Prelude.{IsFalse, ◌+◌, ◌≤◌, ◌++◌, false, take};
ghost use Rattle.std.specs.Option.{option_map};
ghost use Rattle.patch_core.specs.Frame.{is_base};
ghost use Rattle.patch_core.specs.declared.fault.RigFault.TheVariants.{Universe};
ghost use Rattle.desk_core.specs.Played.{order_at, outcome, refusal, tick_answer, tick_at};
ghost use Rattle.desk_core.specs.Played.{ticks_since_end};
ghost use Rattle.console.specs.Streams.{dues_at};
ghost use Rattle.wire_world.specs.Happened.{bytes_of};
ghost use Rattle.wire_world.specs.Replies.{due_answer};
ghost use Rattle.wire_world.specs.Sends.{sends_of, sent_to};
ghost use Rattle.wire_world.specs.Shelves.{IsRest, KeepsFrom, gone_of, shelf_packets};

use crate::Offers;
use crate::packets::Packets;
use crate::shelf::Shelf;
use crate::shelves::{keep_all, packet, release};
use console::Console;
use desk_core::{Instruction, Refused, Ticked};
use fade_core::Fader;
use patch_core::RigFault;
use sacn_source::Identity;
use show_core::Show;
use std::alloc::Global;

// A console of a rehearsal, the packets of its latest tick, and those that an event to come may
// deliver.
#[derive(Drop)]
pub struct Stage<F: Fader> {
    pub console: Console<F>,
    pub link: Packets,
    // One for each universe of which a packet was sent.
    pub shelves: Vec<Shelf>,
    // No event delivers a packet behind this one of any universe.
    pub last: u64,
}

// Moves the packets of a tick to their shelves.
fn shelve(alloc: Global, shelves: &mut Vec<Shelf>, last: u64, link: &mut Packets)
    ensures tells { link.new.full ≡ false → link.old.full ≡ false }
    ensures rest { link.new.full ≡ false → (u : ℕ) (all : List (List ℕ))
        → IsRest (gone_of shelves.old.items u) (shelf_packets shelves.old.items u)
        (take (last + 1) all)
        → IsRest (gone_of shelves.new.items u) (shelf_packets shelves.new.items u)
        (take (last + 1) (all ++ sent_to u (sends_of link.old))) }
    ensures gone { link.new.full ≡ false → (u : ℕ)
        → gone_of shelves.new.items u ≡ gone_of shelves.old.items u }
    ensures empty { link.new.rows ≡ [] }
{
    if keep_all(alloc, shelves, last, &mut link.rows, &mut link.spare).is_err() {
        link.full = true;
    }
}

impl<F: Fader> Stage<F> {
    ghost use Rattle.wire_world.specs.StageStands.{HasHistory, Leads, LinkTells, OfEach};
    ghost use Rattle.wire_world.specs.StageStands.{StageStands};

    // A console that has sent nothing yet, of whose universes no event delivers a packet behind
    // packet `last`.
    pub fn open(
        alloc: Global,
        show: &Show,
        base: u16,
        source: Identity,
        last: u64,
    ) -> Result<Self, RigFault>
        ensures stands { IfOk result (λ stage. StageStands F.stands_for stage
            (record { show = show.now; base = base; source = source }) []) }
        ensures tells { IfOk result (λ stage. LinkTells stage) }
        ensures last { IfOk result (λ stage. stage.last ≡ last) }
        ensures universe { (result ≡ Err Universe) ↔ IsFalse (is_base show.now.patch base) }
    {
        let console = Console::open(alloc, show, base, source)?;
        Ok(Stage {
            console,
            link: Packets::new(alloc),
            shelves: Vec::new(alloc),
            last,
        })
    }

    // Carries out an instruction.
    pub fn order(&mut self, moment: u64, instruction: Instruction) -> Result<(), Refused>
        ensures still_tells { LinkTells self.old → LinkTells self.new }
        ensures answer { OfEach F.stands_for self.old (λ p history.
            result ≡ outcome (refusal p.show history (order_at moment instruction)) tt) }
        ensures stands { OnOk result
            (Leads F.stands_for (order_at moment instruction) self.old self.new) }
        ensures gone { (u : ℕ)
            → gone_of self.new.shelves.items u ≡ gone_of self.old.shelves.items u }
        ensures last { self.new.last ≡ self.old.last }
        ensures unchanged { OnErr result (self.new ≡ self.old) }
    {
        self.console.order(moment, instruction)
    }

    // Shows every universe anew, and sends what is due.
    pub fn tick(&mut self, alloc: Global, moment: u64) -> Result<(Ticked, Offers), Refused>
        requires real { HasHistory F.stands_for self.old }
        ensures answer { OfEach F.stands_for self.old (λ p history. LinkTells self.new
            → result ≡ outcome (refusal p.show history (tick_at moment))
            (tick_answer (ticks_since_end history), map due_answer (dues_at p history moment))) }
        ensures stands { OnOk result (Leads F.stands_for (tick_at moment) self.old self.new) }
        ensures kept { OnErr result (OfEach F.stands_for self.old (λ p history.
            StageStands F.stands_for self.new p history)) }
        ensures gone { LinkTells self.new → (u : ℕ)
            → gone_of self.new.shelves.items u ≡ gone_of self.old.shelves.items u }
        ensures last { self.new.last ≡ self.old.last }
    {
        let answer = self.console.tick(moment, &mut self.link);
        shelve(alloc, &mut self.shelves, self.last, &mut self.link);
        answer
    }

    // Memory for a packet was refused.
    pub fn is_full(&self) -> bool
        ensures { result ≡ self.now.link.full }
    {
        self.link.full
    }

    // Packet k of a universe, where it was sent.
    pub fn datagram(&self, universe: u16, k: u64) -> Option<&[u8]>
        requires here { gone_of self.now.shelves.items universe ≤ k }
        requires wanted { k ≤ self.now.last }
        ensures { OfEach F.stands_for self.now (λ p history. LinkTells self.now
            → option_map (λ bytes. bytes.now) result ≡ bytes_of p history universe k) }
    {
        packet(self.shelves.as_slice(), universe, k)
    }

    // Lets the packets of a universe go that are before packet `low`.
    pub fn release(&mut self, universe: u16, low: u64)
        ensures tells { LinkTells self.old → LinkTells self.new }
        ensures stands { OfEach F.stands_for self.old (λ p history.
            StageStands F.stands_for self.new p history) }
        ensures gone { (u k : ℕ) → gone_of self.old.shelves.items u ≤ k → (universe ≡ u → low ≤ k)
            → gone_of self.new.shelves.items u ≤ k }
        ensures left { KeepsFrom self.new.shelves.items universe low }
        ensures last { self.new.last ≡ self.old.last }
    {
        release(
            self.shelves.as_mut_slice(),
            universe,
            low,
            &mut self.link.spare,
        );
    }
}
