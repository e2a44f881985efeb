ghost use Rattle.std.specs.Prelude.{◌≡◌, ℕ, refl, IsTrue, IsOk, IfOk, OnOk, OnErr, count_by};
ghost use Rattle.std.specs.Borrow.{LendsIf, sem};
ghost use Rattle.std.specs.Cmp.{nat_cmp_total};
ghost use Rattle.std.specs.Ordering.{nat_cmp};
ghost use Rattle.std.specs.Option.{option_copied, option_copied_mut};
ghost use Rattle.std.specs.FinMap as map;
ghost use Rattle.show_core.specs.Keys.{IsNumbered};
ghost use Rattle.show_core.specs.Many.{with_all};

use crate::many::{Kept, put_all};
use crate::place::{place, put, take_out};
use std::alloc::{AllocError, Global};
use std::marker::Model;

// A key, which stands for a number: to contracts a table is a map from the numbers of its keys.
pub trait Key: Ord + Copy {
    ghost number: { Self → ℕ };

    ghost compared: { IsNumbered Self.cmp number };
}

impl Key for u16 {
    ghost number = { λ n. n };

    ghost compared = { record { total = nat_cmp_total; by_number = λ _ _. refl } };
}

impl Key for u32 {
    ghost number = { λ n. n };

    ghost compared = { record { total = nat_cmp_total; by_number = λ _ _. refl } };
}

// What is copied into memory of its own.
pub trait CloneIn: Drop {
    fn clone_in(&self, alloc: Global) -> Result<Self, AllocError>
        ensures { IfOk result (λ copy. copy ≡ self.now) };
}

/// Values by their keys, ascending.
#[derive(Debug, Drop)]
pub struct Table<K: Key, V> {
    entries: Vec<(K, V)>,
}

impl<K: Key, V> Model for Table<K, V> {
    ghost use Rattle.std.specs.Prelude.{IsTrue};
    ghost use Rattle.std.specs.Ordering.{nat_cmp};
    ghost use Rattle.std.specs.Coded.{coded_ℕ};
    ghost use Rattle.std.specs.FinMap as map;
    ghost use Rattle.show_core.specs.Keys.{entries_by_number};

    ghost Value = { map.FinMap nat_cmp V };

    ghost coded = { map.code coded_ℕ V.code };

    ghost view = { λ t. map.from_sorted (entries_by_number K.number t.entries.items) };

    ghost invariant = { λ t. IsTrue (map.is_sorted K.cmp t.entries.items) };
}

impl<K: Key, V: Drop> Table<K, V> {
    ghost use Rattle.show_core.specs.contracts.table.Table.{the_row};

    #[tactic(auto, using(crate::proofs::Tables::of_none))]
    pub fn new(alloc: Global) -> Self
        ensures { result ≡ map.empty }
    {
        Table {
            entries: Vec::new(alloc),
        }
    }

    #[tactic(auto, using(crate::proofs::Tables::len_seen))]
    pub fn len(&self) -> usize
        ensures { result ≡ map.len self.now }
    {
        self.entries.len()
    }

    pub fn has(&self, key: K) -> bool
        ensures { result ≡ map.contains_key self.now (K.number key) }
    {
        self.get(key).is_some()
    }

    #[tactic(auto, using(crate::proofs::Tables::value_seen))]
    pub fn get(&self, key: K) -> Option<&V>
        ensures { option_copied result ≡ map.get self.now (K.number key) }
    {
        match place(&self.entries, key) {
            Ok(at) => Some(&self.entries[at].1),
            Err(_) => None,
        }
    }

    // The value at the key, to be changed in place.
    pub fn get_mut(&mut self, key: K) -> Option<&mut V>
        ensures* writes_back { sem 𝓛
            (LendsIf (the_row K.row V.row K.Key.own K.Ord.own K.PartialEq.own K.PartialOrd.own)
            V.row self.entry result (map.insert self.entry.now (K.number key)) self.entry.now) }
        ensures value { option_copied_mut result ≡ map.get self.old (K.number key) }
    {
        match place(&self.entries, key) {
            Ok(at) => Some(&mut self.entries[at].1),
            Err(_) => None,
        }
    }

    #[tactic(auto, using(crate::proofs::Tables::find_seen))]
    pub fn put(&mut self, key: K, value: V) -> Result<(), AllocError>
        ensures ok { OnOk result (self.new ≡ map.insert self.old (K.number key) value) }
        ensures err { OnErr result (self.new ≡ self.old) }
        ensures sure { IsTrue (map.contains_key self.old (K.number key)) → IsOk result }
    {
        put(&mut self.entries, key, value)?;
        Ok(())
    }

    #[tactic(auto, using(crate::proofs::Tables::of_none))]
    pub fn clear(&mut self)
        ensures { self.new ≡ map.empty }
    {
        self.entries.clear();
    }
}

impl<V: Drop> Table<u16, V> {
    // The entries, ascending by their keys.
    pub fn entries(&self) -> &[(u16, V)]
        ensures entries { result.now ≡ map.entries self.now }
        ensures sorted { IsTrue (map.is_sorted nat_cmp result.now) }
    {
        &self.entries
    }

    pub fn remove(&mut self, key: u16)
        ensures { self.new ≡ map.remove self.old key }
    {
        take_out(&mut self.entries, key);
    }
}

impl<V: Drop> Table<u32, V> {
    // The entries, ascending by their keys.
    pub fn entries(&self) -> &[(u32, V)]
        ensures { result.now ≡ map.entries self.now }
    {
        &self.entries
    }
}

impl<V: Kept> Table<u16, V> {
    // Puts each of the entries, one after the other.
    pub fn put_all(&mut self, entries: &[(u16, V)]) -> Result<(), AllocError>
        ensures ok { OnOk result (self.new ≡ with_all V.stays self.old entries.now) }
        ensures err { OnErr result (self.new ≡ self.old) }
        ensures sure { count_by (λ e. V.stays e.1) entries.now ≡ 0 → IsOk result }
    {
        put_all(&mut self.entries, entries)?;
        Ok(())
    }
}

impl<K: Key, V: Copy> Table<K, V> {
    pub fn copy_in(&self, alloc: Global) -> Result<Self, AllocError>
        ensures { IfOk result (λ copy. copy ≡ self.now) }
    {
        Ok(Table {
            entries: Vec::from_slice(alloc, &self.entries)?,
        })
    }
}

impl<K: Key, V: CloneIn> CloneIn for Table<K, V> {
    fn clone_in(&self, alloc: Global) -> Result<Self, AllocError> {
        let entries = clone_entries(alloc, &self.entries)?;
        Ok(Table { entries })
    }
}

fn clone_entries<K: Key, V: CloneIn>(
    alloc: Global,
    entries: &[(K, V)],
) -> Result<Vec<(K, V)>, AllocError>
    ensures { IfOk result (λ copy. copy.items ≡ entries.now) }
{
    let mut copy = Vec::new(alloc);
    for entry in entries {
        let value = entry.1.clone_in(alloc)?;
        copy.push((entry.0, value))?;
    }
    Ok(copy)
}
