ghost use Rattle.std.specs.Prelude.{◌≡◌};
ghost use Rattle.night_files.specs.LockPaths.{is_own_folder};

use crate::lock_place::PathText;

/// Why a lock is not had.
#[derive(Clone, Copy, Debug)]
pub enum LockFault {
    /// Another console holds it, by this file.
    Held(PathText),
    /// An allocation failed.
    Memory,
}

/// What a path leads to where a folder should be. A link is not followed.
#[derive(Clone, Copy, Debug, PartialEq, Eq)]
pub struct FoundFolder {
    pub is_folder: bool,
    /// The number of the user whose it is.
    pub owner: u32,
}

impl FoundFolder {
    /// Returns whether it is a folder of the user of this number.
    pub fn is_own(self, user: u32) -> bool
        ensures { result ≡ is_own_folder self user }
    {
        self.is_folder && self.owner == user
    }
}
