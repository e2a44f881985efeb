use std::env::{Env, FillError};
use std::io::IsTerminal;

/// Whether this run tells remarks, by its first word, its environment and its standard error. It
/// takes no memory.
pub fn has_remarks(rt: &HostRuntime) -> bool {
    let (mut word, mut text) = ([0; 8], [0; 2]);
    let subcommand = filled(rt.arg(1, &mut word), &word);
    let variable = filled(rt.var("CUEPLAYER_REMARKS", &mut text), &text);
    remarks::has_remarks(subcommand, variable, rt.stderr().is_terminal())
}

// What was written to a buffer: nothing where it has no room for the whole.
fn filled<'a>(answer: Result<usize, FillError>, buffer: &'a [u8]) -> &'a [u8] {
    let length = answer.unwrap_or(0);
    buffer.get(..length).unwrap_or(&[])
}
