ghost use Rattle.std.specs.Prelude.{◌≡◌, ◌+◌, ◌<◌, ◌≤◌, IsTrue, IsSome, IsOk, IfOk, IfErr};
ghost use Rattle.std.specs.Prelude.{OnOk, OnErr, vec_len, vec_capacity};
ghost use Rattle.std.specs.FinMap as map;
ghost use Rattle.show_core.specs.Place.{IsAt, IsGap, without};

use std::alloc::AllocError;
use std::cmp::Ordering;

// Where the key is in entries sorted by their keys, or where it would go.
pub fn place<K: Ord + Copy, V>(entries: &[(K, V)], key: K) -> Result<usize, usize>
    requires { IsTrue (map.is_sorted K.cmp entries.now) }
    ensures found { IfOk result (IsAt K.cmp entries.now key) }
    ensures absent { IfErr result (IsGap K.cmp entries.now key) }
{
    // Shows list most of their numbers in ascending order: a key is then mostly that of the last
    // entry, or above it.
    if let Some(last) = entries.last() {
        match last.0.cmp(&key) {
            Ordering::Less => return Err(entries.len()),
            Ordering::Equal => return Ok(entries.len() - 1),
            Ordering::Greater => {}
        }
    }
    entries.binary_search_by_key(&key, |entry| entry.0)
}

// Puts the value at the key.
pub fn put<K: Ord + Copy, V: Drop>(
    entries: &mut Vec<(K, V)>,
    key: K,
    value: V,
) -> Result<(), AllocError>
    requires { IsTrue (map.is_sorted K.cmp entries.old.items) }
    ensures ok { OnOk result (entries.new.items ≡ map.put K.cmp key value entries.old.items) }
    ensures err { OnErr result (entries.new.items ≡ entries.old.items) }
    ensures sure { IsSome (map.find K.cmp key entries.old.items) → IsOk result }
    ensures room { vec_len entries.old < vec_capacity entries.old → IsOk result }
    ensures len { vec_len entries.new ≤ vec_len entries.old + 1 }
    ensures capacity { vec_capacity entries.old ≤ vec_capacity entries.new }
{
    match place(entries, key) {
        Ok(at) => {
            entries[at].1 = value;
            Ok(())
        }
        Err(at) if at == entries.len() => Ok(entries.push((key, value))?),
        Err(at) => Ok(entries.insert(at, (key, value))?),
    }
}

// Takes the key out, if it is there.
pub fn take_out<K: Ord + Copy, V: Drop>(entries: &mut Vec<(K, V)>, key: K)
    requires { IsTrue (map.is_sorted K.cmp entries.old.items) }
    ensures items { entries.new.items ≡ without K.cmp key entries.old.items }
    ensures len { vec_len entries.new ≤ vec_len entries.old }
    ensures capacity { vec_capacity entries.old ≤ vec_capacity entries.new }
{
    if let Ok(at) = place(entries, key) {
        entries.remove(at);
    }
}
