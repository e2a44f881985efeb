use crate::live_job::LiveWords;
use crate::reading::{HEAD_PATIENCE, record_lines};
use cmd_words::Name;
use night_record::FirstLines;
use std::alloc::AllocError;
use std::fs::metadata;
use system_devices::machine_name;

/// The name of who sends in a live night of these words, where none was given.
///
/// # Errors
///
/// If an allocation failed.
pub fn live_name(rt: &HostRuntime, words: LiveWords<'_>) -> Result<Name, AllocError> {
    let lines = lines_that_go_on(rt, words);
    night_opening::live_name(rt.alloc(), &lines, machine_name(rt).as_slice())
}

// The first lines of the record that is to go on, if they are there: a spare waits for them, which
// another process may just write.
fn lines_that_go_on(rt: &HostRuntime, words: LiveWords<'_>) -> Option<FirstLines> {
    let file = words.record_file?;
    if !words.resumes || !is_file(rt, file) {
        return None;
    }
    let patience = if words.is_spare { HEAD_PATIENCE } else { 0 };
    let (lines, _) = record_lines(rt, file, patience).ok()??;
    Some(lines)
}

fn is_file(rt: &HostRuntime, name: &str) -> bool {
    metadata(rt, name).is_ok_and(|found| found.is_file())
}
