ghost use Rattle.std.specs.Prelude.{◌≡◌, IsTrue, IsOk, OnOk, OnErr, IfSome, All, option_map, []};
ghost use Rattle.std.specs.List.{list_all};
ghost use Rattle.std.specs.FinMap as map;
ghost use Rattle.show_core.specs.Numbers.{is_channel};
ghost use Rattle.show_core.specs.Builders.{opened_in, with_listed, with_all_listed};

use crate::levels::Levels;
use crate::table::Table;
use std::alloc::{AllocError, Global};

/// Submasters or groups, by their numbers.
pub type MasterTable = Table<u16, Levels>;

impl MasterTable {
    // Opens record `n`, or continues it where it is there.
    pub fn open(&mut self, alloc: Global, n: u16) -> Result<(), AllocError>
        ensures opened { OnOk result (self.new ≡ opened_in self.old n) }
        ensures unchanged { OnErr result (self.new ≡ self.old) }
        ensures sure { IsTrue (map.contains_key self.old n) → IsOk result }
    {
        if !self.has(n) {
            self.put(n, Levels::new(alloc))?;
        }
        Ok(())
    }

    #[tactic(auto, using(crate::proofs::Changes::insert_there))]
    pub fn set_level(&mut self, n: u16, channel: u16, byte: u8) -> Result<(), AllocError>
        requires there { IsTrue (map.contains_key self.old n) }
        requires range { IsTrue (is_channel channel) }
        ensures set { OnOk result (self.new ≡ with_listed self.old n channel byte) }
        ensures unchanged { OnErr result (self.new ≡ self.old) }
        ensures sure { IfSome (map.get self.old n)
            (λ levels. IsTrue (map.contains_key levels channel) → IsOk result) }
    {
        if let Some(levels) = self.get_mut(n) {
            levels.set(channel, byte)?;
        }
        Ok(())
    }

    // Sets each of the levels, one after the other.
    #[tactic(auto, using(crate::proofs::Changes::level_changes))]
    pub fn set_levels(&mut self, n: u16, pairs: &[(u16, u8)]) -> Result<(), AllocError>
        requires { IsTrue (list_all (λ pair. is_channel pair.0) pairs.now) }
        ensures set { OnOk result (self.new ≡ with_all_listed self.old n pairs.now) }
        ensures unchanged { OnErr result (self.new ≡ self.old) }
        ensures sure { pairs.now ≡ [] → IsOk result }
    {
        if let Some(levels) = self.get_mut(n) {
            levels.set_all(pairs)?;
        }
        Ok(())
    }

    // The channels that record `n` lists, ascending.
    pub fn pairs(&self, n: u16) -> Option<&[(u16, u8)]>
        ensures entries { option_map (λ pairs. pairs.now) result
            ≡ option_map map.entries (map.get self.now n) }
        ensures range { IfSome result (λ pairs. All (λ e. IsTrue (is_channel e.0)) pairs.now) }
    {
        let levels = self.get(n)?;
        Some(levels.pairs())
    }
}
