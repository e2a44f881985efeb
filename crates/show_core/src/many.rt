ghost use Rattle.std.specs.Prelude.{◌≡◌, ◌+◌, ◌==◌, ◌<◌, ◌≤◌, ℕ, Bool, true, not, List, [], ◌++◌};
ghost use Rattle.std.specs.Prelude.{length, All, count_by, IsTrue, IsOk, IfOk, OnOk, OnErr};
ghost use Rattle.std.specs.Prelude.{if◌then◌else◌};
ghost use Rattle.std.specs.Ordering.{nat_cmp};
ghost use Rattle.std.specs.FinMap as map;
ghost use Rattle.show_core.specs.Many.{with_entries, IsTableOf};

use crate::place::{put, take_out};
use std::alloc::{AllocError, Global};

// What a table keeps at its keys.
pub trait Kept: Copy {
    ghost stays: { Self → Bool };

    // Whether the value stays at its key: one that does not takes the key out.
    fn stays(self) -> bool
        ensures { result ≡ stays self };
}

// Each level of a channel stays.
impl Kept for u8 {
    ghost stays = { λ _. true };

    fn stays(self) -> bool {
        true
    }
}

// A dimmer's channel and level byte: channel 0 leaves it unpatched.
impl Kept for (u16, u8) {
    ghost stays = { λ p. not (p.0 == 0) };

    fn stays(self) -> bool {
        self.0 != 0
    }
}

// Fewer than these are put one by one.
const FEW: usize = 128;

// Puts each of the new entries at its key, one after the other.
pub fn put_all<V: Kept>(entries: &mut Vec<(u16, V)>, new: &[(u16, V)]) -> Result<(), AllocError>
    requires { IsTrue (map.is_sorted nat_cmp entries.old.items) }
    ensures ok { OnOk result (entries.new.items
        ≡ with_entries V.stays entries.old.items new.now) }
    ensures err { OnErr result (entries.new.items ≡ entries.old.items) }
    ensures sure { count_by (λ e. V.stays e.1) new.now ≡ 0 → IsOk result }
{
    let staying = new.iter().filter(|entry| entry.1.stays()).count();
    if staying > 0 && go_behind(entries, new) {
        return entries.extend_from_slice(new);
    }
    if staying < FEW {
        return put_each(entries, new, staying);
    }
    let alloc = *entries.allocator();
    *entries = merge(alloc, entries, new)?;
    Ok(())
}

// Puts them one by one; this many of them stay.
fn put_each<V: Kept>(
    entries: &mut Vec<(u16, V)>,
    new: &[(u16, V)],
    staying: usize,
) -> Result<(), AllocError>
    requires sorted { IsTrue (map.is_sorted nat_cmp entries.old.items) }
    requires staying { staying ≡ count_by (λ e. V.stays e.1) new.now }
    ensures ok { OnOk result (entries.new.items
        ≡ with_entries V.stays entries.old.items new.now) }
    ensures err { OnErr result (entries.new.items ≡ entries.old.items) }
    ensures sure { staying ≡ 0 → IsOk result }
{
    // With room for all, no allocation fails halfway.
    entries.reserve(staying)?;
    for entry in new {
        if entry.1.stays() {
            put(entries, entry.0, entry.1)?;
        } else {
            take_out(entries, entry.0);
        }
    }
    Ok(())
}

// Whether the new ones ascend from behind the entries on, and all stay: then they are appended.
fn go_behind<V: Kept>(entries: &[(u16, V)], new: &[(u16, V)]) -> bool
    requires { IsTrue (map.is_sorted nat_cmp entries.now) }
    ensures { IsTrue result → with_entries V.stays entries.now new.now ≡ entries.now ++ new.now }
{
    let mut least = end_of(entries);
    for entry in new {
        if u32::from(entry.0) < least || !entry.1.stays() {
            return false;
        }
        least = behind(entry);
    }
    true
}

// The least key behind all entries.
fn end_of<V: Kept>(entries: &[(u16, V)]) -> u32
    requires { IsTrue (map.is_sorted nat_cmp entries.now) }
    ensures end { All (λ e. e.0 < result) entries.now }
    ensures bound { result ≤ 65536 }
{
    match entries.last() {
        Some(last) => behind(last),
        None => 0,
    }
}

// The key behind that of an entry.
fn behind<V: Kept>(entry: &(u16, V)) -> u32
    ensures next { result ≡ entry.now.0 + 1 }
    ensures bound { result ≤ 65536 }
{
    u32::from(entry.0) + 1
}

// The entries with the new ones, by way of a table with a place for each key. It costs a pass over
// all keys, and no search or move for an entry.
fn merge<V: Kept>(
    alloc: Global,
    entries: &[(u16, V)],
    new: &[(u16, V)],
) -> Result<Vec<(u16, V)>, AllocError>
    requires { IsTrue (map.is_sorted nat_cmp entries.now) }
    ensures { IfOk result (λ all. all.items ≡ with_entries V.stays entries.now new.now) }
{
    let mut table = Vec::new(alloc);
    table.resize(table_len(entries, new), None)?;
    merge_by(alloc, &mut table, entries, new)
}

// The same, by a table that has none.
fn merge_by<V: Kept>(
    alloc: Global,
    table: &mut [Option<V>],
    entries: &[(u16, V)],
    new: &[(u16, V)],
) -> Result<Vec<(u16, V)>, AllocError>
    requires sorted { IsTrue (map.is_sorted nat_cmp entries.now) }
    requires entries { All (λ e. e.0 < length table.old) entries.now }
    requires new { All (λ e. e.0 < length table.old) new.now }
    requires bound { length table.old ≤ 65536 }
    requires none { IsTableOf table.old [] }
    ensures { IfOk result (λ all. all.items ≡ with_entries V.stays entries.now new.now) }
{
    fill(table, entries);
    overwrite(table, new);
    gather(alloc, table)
}

// How long a table is that has a place for each of their keys.
fn table_len<V: Kept>(entries: &[(u16, V)], new: &[(u16, V)]) -> usize
    requires { IsTrue (map.is_sorted nat_cmp entries.now) }
    ensures entries { All (λ e. e.0 < result) entries.now }
    ensures new { All (λ e. e.0 < result) new.now }
    ensures bound { result ≤ 65536 }
{
    let mut len = end_of(entries);
    for entry in new {
        len = len.max(behind(entry));
    }
    len as usize
}

// Writes the entries into a table that has none.
fn fill<V: Kept>(table: &mut [Option<V>], entries: &[(u16, V)])
    requires sorted { IsTrue (map.is_sorted nat_cmp entries.now) }
    requires fit { All (λ e. e.0 < length table.old) entries.now }
    requires none { IsTableOf table.old [] }
    ensures { IsTableOf table.new entries.now }
{
    for entry in entries {
        table[usize::from(entry.0)] = Some(entry.1);
    }
}

// What a table has at a key with this value: none, where the value does not stay.
fn table_value<V: Kept>(value: V) -> Option<V>
    ensures { result ≡ if V.stays value then Some value else None }
{
    value.stays().then_some(value)
}

// Writes the new ones over what the table has, one after the other.
fn overwrite<V: Kept>(table: &mut [Option<V>], new: &[(u16, V)])
    requires { All (λ e. e.0 < length table.old) new.now }
    ensures { (entries : List (ℕ × V)) → IsTableOf table.old entries
        → IsTableOf table.new (with_entries V.stays entries new.now) }
{
    for entry in new {
        table[usize::from(entry.0)] = table_value(entry.1);
    }
}

// The entries of a table, ascending.
fn gather<V: Kept>(alloc: Global, table: &[Option<V>]) -> Result<Vec<(u16, V)>, AllocError>
    requires { length table.now ≤ 65536 }
    ensures { (entries : List (ℕ × V)) → IsTrue (map.is_sorted nat_cmp entries)
        → All (λ e. e.0 < length table.now) entries → IsTableOf table.now entries
        → IfOk result (λ all. all.items ≡ entries) }
{
    let count = table.iter().filter(|value| value.is_some()).count();
    let mut all = Vec::with_capacity(alloc, count)?;
    for (key, value) in table.iter().enumerate() {
        if let Some(value) = value {
            all.push((key as u16, *value))?;
        }
    }
    Ok(all)
}
