ghost use Rattle.std.specs.Prelude.{◌≡◌, ◌++◌, IfOk, codes, option_map};
ghost use Rattle.night_files.specs.LockPaths.{folder_bytes, lock_folder, lock_path, named_folder};
ghost use Rattle.night_files.specs.LockPaths.{runtime_folder, short_path, variable_bytes};

use crate::fault::FileFault;
use arrayvec::ArrayString;
use itoa::Buffer;
use std::alloc::{AllocError, Global};
use std::env::VarError;

/// There is room for the folder that the environment names.
pub type PathText = ArrayString<512>;

/// The folder that the system gives the user of this number, as `/run/user/1000`.
pub fn runtime_folder(user: u32) -> PathText
    ensures { result.bytes ≡ runtime_folder user }
{
    let mut path = PathText::new();
    path.push_str("/run/user/");
    path.push_str(Buffer::new().format(user));
    path
}

/// What the environment names as the user's runtime folder, by how its variable is read: an empty
/// text where that is not set, or is no text; none where it has more than 512 bytes.
///
/// # Errors
///
/// `Memory` if an allocation failed.
pub fn named_folder(variable: Result<String, VarError>) -> Result<Option<PathText>, FileFault>
    ensures { folder_bytes result
        ≡ named_folder (variable_bytes variable) }
{
    match variable {
        Ok(name) => Ok(path_text(name.as_str())),
        Err(VarError::OutOfMemory) => Err(FileFault::Memory),
        Err(_) => Ok(Some(PathText::new())),
    }
}

fn path_text(name: &str) -> Option<PathText>
    ensures { option_map (λ path. path.bytes) result ≡ short_path name.now }
{
    PathText::from(name).ok()
}

/// The folder of the locks of CIDs, by what the environment names as the user's runtime folder,
/// which is empty where it names none; by whether [`runtime_folder`] is the user's own; and by the
/// user's number. There is none where its name is too long.
pub fn lock_folder(named: &str, has_runtime: bool, user: u32) -> Option<PathText>
    ensures { option_map (λ path. path.bytes) result
        ≡ short_path (lock_folder named.now has_runtime user) }
{
    let mut path = PathText::new();
    if named.is_empty() && !has_runtime {
        path.push_str("/tmp/cueplayer-");
        path.push_str(Buffer::new().format(user));
        return Some(path);
    }
    if named.is_empty() {
        path.push_str(runtime_folder(user).as_str());
    } else {
        path.try_push_str(named).ok()?;
    }
    path.try_push_str("/cueplayer").ok()?;
    Some(path)
}

/// The file of the lock of a CID in their folder. There is none where its name is too long.
///
/// # Errors
///
/// If an allocation failed.
pub fn lock_path(
    alloc: Global,
    folder: &PathText,
    cid: [u8; 16],
) -> Result<Option<PathText>, AllocError>
    ensures { IfOk result (λ found. option_map (λ path. path.bytes) found
        ≡ short_path (lock_path folder.now.bytes cid)) }
{
    let digits = hex::encode(alloc, cid)?;
    Ok(path_of(folder, digits.as_str()))
}

fn path_of(folder: &PathText, digits: &str) -> Option<PathText>
    ensures { option_map (λ path. path.bytes) result
        ≡ short_path (folder.now.bytes ++ codes "/" ++ digits.now ++ codes ".lock") }
{
    let mut path = *folder;
    path.try_push_str("/").ok()?;
    path.try_push_str(digits).ok()?;
    path.try_push_str(".lock").ok()?;
    Some(path)
}
