ghost use Rattle.std.specs.Prelude.{◌≡◌, option_map};
ghost use Rattle.show_jobs.specs.Seemings.{IsSeeming, IsSeemingRemark};

use cmd_explain::seems;
use remarks::{Remark, of_seeming};
use show_reader::read_show;
use std::alloc::Global;

/// What a file seems to be that is no text, and whose show has no cue; nothing of another file, and
/// nothing where there was no memory to read its show.
pub fn seeming_remark(alloc: Global, file: &[u8]) -> Remark
    ensures { IsSeemingRemark file.now result.items }
{
    match seeming(alloc, file) {
        Some(what) => of_seeming(what),
        None => Remark::new(),
    }
}

fn seeming(alloc: Global, file: &[u8]) -> Option<&'static str>
    ensures { IsSeeming file.now (option_map (λ what. what.now) result) }
{
    let what = seems(file)?;
    match read_show(alloc, file) {
        Ok(loaded) if loaded.show.counts().cues == 0 => Some(what),
        _ => None,
    }
}
