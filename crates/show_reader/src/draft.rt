ghost use Rattle.std.specs.Prelude.{◌≡◌, ◌==◌, [], ◌∷◌, false, IsOk, IfOk, OnOk, IsTrue};
ghost use Rattle.std.specs.Prelude.{All, None, Some};
ghost use Rattle.std.specs.FinMap as maps;
ghost use Rattle.show_line.specs.Sound.{IsTripleInRange};
ghost use Rattle.show_line.specs.declared.statement.Statement.TheVariants as statement;
ghost use Rattle.show_reader.specs.Keys.{has_record};
ghost use Rattle.show_reader.specs.Reading.{grows};
ghost use Rattle.show_reader.specs.Applied.{show_after, with_pairs};
ghost use Rattle.show_reader.specs.Reads.{show_of_draft, IsDraft, IsSettled};

use show_core::{BuildFault, Show};
use show_line::{Pairs, Record, Triple, Triples};
use std::alloc::{AllocError, Global};

/// A show in the making. The levels of a record, and patches, are kept aside, so that the show
/// takes many at once: whatever their order, it then makes room for them once. Their numbers are in
/// their ranges, so that it refuses them only when memory runs out.
#[derive(Drop)]
pub struct Draft {
    pub show: Show,
    /// The record that the levels are for.
    pub listing: Option<Record>,
    pub levels: Vec<(u16, u8)>,
    /// Dimmers, each with its channel and its level byte.
    pub patches: Vec<(u16, (u16, u8))>,
}

impl Draft {
    /// A draft of an empty show. It takes no memory.
    pub fn new(alloc: Global) -> Draft
        ensures cues { (show_of_draft result).cues ≡ maps.empty }
        ensures subs { (show_of_draft result).subs ≡ maps.empty }
        ensures groups { (show_of_draft result).groups ≡ maps.empty }
        ensures patch { (show_of_draft result).patch ≡ maps.empty }
        ensures drafted { IsDraft result }
        ensures settled { IsSettled result }
    {
        Draft {
            show: Show::new(alloc),
            listing: None,
            levels: Vec::new(alloc),
            patches: Vec::new(alloc),
        }
    }

    /// Sets the levels of the pairs of a CHAN line.
    pub fn list(&mut self, which: Record, pairs: Pairs<'_>) -> Result<(), AllocError>
        requires drafted { IsDraft self.old }
        requires owned { IsTrue (has_record (show_of_draft self.old) which) }
        ensures drafted { OnOk result (IsDraft self.new) }
        ensures ok { OnOk result
            (show_of_draft self.new ≡ with_pairs (show_of_draft self.old) which pairs.entry) }
        ensures settled { OnOk result
            (IsSettled self.old → grows (statement.Levels which pairs.entry) ≡ false
            → IsSettled self.new) }
        ensures sure { IsSettled self.old → grows (statement.Levels which pairs.entry) ≡ false
            → IsOk result }
    {
        self.turn_to(which)?;
        pairs.append_to(&mut self.levels)?;
        Ok(())
    }

    // Makes the record the one that levels are kept aside for.
    fn turn_to(&mut self, which: Record) -> Result<(), AllocError>
        requires drafted { IsDraft self.old }
        requires owned { IsTrue (has_record (show_of_draft self.old) which) }
        ensures drafted { OnOk result (IsDraft self.new) }
        ensures ok { OnOk result (show_of_draft self.new ≡ show_of_draft self.old) }
        ensures listing { OnOk result (self.new.listing ≡ Some which) }
        ensures settled { OnOk result (IsSettled self.old → IsSettled self.new) }
        ensures sure { IsSettled self.old → IsOk result }
    {
        if self.listing != Some(which) {
            self.put_levels()?;
            self.listing = Some(which);
        }
        Ok(())
    }

    /// Patches the dimmers of the triples of a PATCH line.
    pub fn patch(&mut self, triples: Triples<'_>) -> Result<(), AllocError>
        requires drafted { IsDraft self.old }
        requires sound { All IsTripleInRange triples }
        ensures drafted { OnOk result (IsDraft self.new) }
        ensures ok { OnOk result
            (show_of_draft self.new
            ≡ show_after (statement.Patches triples.entry) (show_of_draft self.old)) }
        ensures settled { OnOk result
            (IsSettled self.old → grows (statement.Patches triples.entry) ≡ false
            → IsSettled self.new) }
        ensures sure { IsSettled self.old → grows (statement.Patches triples.entry) ≡ false
            → IsOk result }
    {
        for triple in triples {
            self.patch_dimmer(triple)?;
        }
        Ok(())
    }

    // To unpatch a dimmer needs no memory, so it is kept aside only behind others.
    fn patch_dimmer(&mut self, triple: Triple) -> Result<(), AllocError>
        requires drafted { IsDraft self.old }
        requires sound { IsTripleInRange triple }
        ensures drafted { OnOk result (IsDraft self.new) }
        ensures ok { OnOk result
            (show_of_draft self.new
            ≡ show_after (statement.Patches (triple ∷ [])) (show_of_draft self.old)) }
        ensures settled { OnOk result
            (IsSettled self.old → IsTrue (triple.channel == 0) → IsSettled self.new) }
        ensures sure { IsSettled self.old → IsTrue (triple.channel == 0) → IsOk result }
    {
        if triple.channel == 0 && self.patches.is_empty() {
            let unpatched = self.show.set_patch(triple.dimmer, 0, triple.level);
            return unpatched.map_err(|_| AllocError);
        }
        self.patches
            .push((triple.dimmer, (triple.channel, triple.level)))?;
        Ok(())
    }

    /// Sets the levels that are kept aside.
    pub fn put_levels(&mut self) -> Result<(), AllocError>
        requires { IsDraft self.old }
        ensures ok { OnOk result (show_of_draft self.new ≡ show_of_draft self.old) }
        ensures listing { OnOk result (self.new.listing ≡ None) }
        ensures levels { OnOk result (self.new.levels.items ≡ []) }
        ensures patches { OnOk result (self.new.patches.items ≡ self.old.patches.items) }
        ensures sure { self.old.levels.items ≡ [] → IsOk result }
    {
        if let Some(which) = self.listing {
            let listed = set_levels(&mut self.show, which, &self.levels);
            listed.map_err(|_| AllocError)?;
        }
        self.listing = None;
        self.levels.clear();
        Ok(())
    }

    /// Carries out all that is kept aside.
    pub fn settle(&mut self) -> Result<(), AllocError>
        requires { IsDraft self.old }
        ensures ok { OnOk result (self.new.show ≡ show_of_draft self.old) }
        ensures listing { OnOk result (self.new.listing ≡ None) }
        ensures settled { OnOk result (IsSettled self.new) }
        ensures sure { IsSettled self.old → IsOk result }
    {
        self.put_levels()?;
        let patched = self.show.set_patches(&self.patches);
        patched.map_err(|_| AllocError)?;
        self.patches.clear();
        Ok(())
    }

    /// The show.
    pub fn finish(mut self) -> Result<Show, AllocError>
        requires { IsDraft self }
        ensures ok { IfOk result (λ show. show ≡ show_of_draft self) }
        ensures sure { IsSettled self → IsOk result }
    {
        self.settle()?;
        Ok(self.show)
    }
}

// Sets the levels of a record.
fn set_levels(show: &mut Show, which: Record, levels: &[(u16, u8)]) -> Result<(), BuildFault>
    requires { IsTrue (has_record show.old which) }
    ensures ok { OnOk result (show.new ≡ with_pairs show.old which levels.now) }
    ensures sure { levels.now ≡ [] → IsOk result }
{
    match which {
        Record::Cue(n) => show.cue_levels(n, levels),
        Record::Group(n) => show.group_levels(n, levels),
        Record::Sub(n) => show.sub_levels(n, levels),
    }
}
