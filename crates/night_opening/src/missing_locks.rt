ghost use Rattle.std.specs.Prelude.{◌≡◌, option_map};
ghost use Rattle.std.specs.Option.{option_to_list};
ghost use Rattle.night_opening.specs.MissingLocks as spec;

use remarks::no_lock;

// Told where the file system of a record has no locks.
const NO_RECORD_LOCK: &[u8] =
    b"record: no lock can be made, so a second night in this FILE would begin\n";

/// The line of a night that lacks the lock of its CID; `None` where it has that.
pub fn missing_cid_lock(has_lock: bool) -> Option<&'static [u8]>
    ensures { option_to_list (option_map (λ line. line.now) result)
        ≡ spec.missing_cid_lock has_lock }
{
    if has_lock {
        return None;
    }
    Some(no_lock())
}

/// The line of a night that lacks the lock of the record that it keeps; `None` where it has that,
/// or keeps none.
pub fn missing_record_lock(has_lock: Option<bool>) -> Option<&'static [u8]>
    ensures { option_to_list (option_map (λ line. line.now) result)
        ≡ spec.missing_record_lock has_lock }
{
    if has_lock == Some(false) {
        return Some(NO_RECORD_LOCK);
    }
    None
}
