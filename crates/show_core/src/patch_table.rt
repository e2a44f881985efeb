ghost use Rattle.std.specs.List.{AllWithin, list_any, list_all};
ghost use Rattle.std.specs.Ordering.{nat_cmp};
ghost use Rattle.std.specs.Prelude.{◌≡◌, ◌==◌, ◌||◌, ◌<◌, ◌≤◌, length};
ghost use Rattle.std.specs.Prelude.{IsTrue, IsOk, OnOk, OnErr};
ghost use Rattle.std.specs.FinMap as map;
ghost use Rattle.show_core.specs.Builders.{patched_with, all_patched};
ghost use Rattle.show_core.specs.Readers.{has_dimmer_in, ordinal_of};

use crate::limits::SLOTS;
use crate::table::Table;
use std::alloc::AllocError;

/// For each patched dimmer its channel and its level byte.
pub type PatchTable = Table<u16, (u16, u8)>;

impl PatchTable {
    // Patches the dimmer to the channel, or leaves it unpatched at channel 0.
    pub fn set(&mut self, dimmer: u16, channel: u16, byte: u8) -> Result<(), AllocError>
        ensures set { OnOk result (self.new ≡ patched_with self.old dimmer channel byte) }
        ensures unchanged { OnErr result (self.new ≡ self.old) }
        ensures sure { IsTrue ((channel == 0) || map.contains_key self.old dimmer) → IsOk result }
    {
        if channel == 0 {
            self.remove(dimmer);
        } else {
            self.put(dimmer, (channel, byte))?;
        }
        Ok(())
    }

    // Patches each of the dimmers, one after the other.
    #[tactic(auto, using(crate::proofs::Entries::patched))]
    pub fn set_all(&mut self, entries: &[(u16, (u16, u8))]) -> Result<(), AllocError>
        ensures set { OnOk result (self.new ≡ all_patched self.old entries.now) }
        ensures unchanged { OnErr result (self.new ≡ self.old) }
        ensures sure { IsTrue (list_all (λ e. e.1.0 == 0) entries.now) → IsOk result }
    {
        self.put_all(entries)?;
        Ok(())
    }

    // Whether a dimmer of the universe is patched.
    pub fn has_dimmer_in(&self, ordinal: u16) -> bool
        ensures { result ≡ has_dimmer_in self.now ordinal }
    {
        any_dimmer_in(self.entries(), ordinal)
    }
}

// The entries are in the order of their universes, so the first that is not below this one tells.
fn any_dimmer_in(entries: &[(u16, (u16, u8))], ordinal: u16) -> bool
    requires { IsTrue (map.is_sorted nat_cmp entries.now) }
    ensures { result ≡ list_any (λ e. ordinal_of e.0 == ordinal) entries.now }
{
    let at = first_in(entries, ordinal);
    at < entries.len() && ordinal_of(entries[at].0) == ordinal
}

// The place where the entries of this universe, and those above it, begin.
fn first_in(entries: &[(u16, (u16, u8))], ordinal: u16) -> usize
    requires { IsTrue (map.is_sorted nat_cmp entries.now) }
    ensures below { AllWithin (λ e. ordinal_of e.0 < ordinal) entries.now 0 result }
    ensures from_on { AllWithin (λ e. ordinal ≤ ordinal_of e.0) entries.now result
        (length entries.now) }
{
    entries.partition_point(|entry| ordinal_of(entry.0) < ordinal)
}

fn ordinal_of(dimmer: u16) -> u16
    ensures { result ≡ ordinal_of dimmer }
{
    dimmer.saturating_sub(1) / SLOTS
}
