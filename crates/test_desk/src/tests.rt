use std::alloc::{AllocError, Global};
use std::fmt::Display;

mod calls;
mod desks;
mod fades;
mod live;
mod master_levels;
mod night;
mod patches;
mod playbacks;
mod script;
mod shows;
mod world;

// Whether each of the values is printed so.
fn are_printed<T: Display>(alloc: Global, rows: &[(T, &str)]) -> Result<bool, AllocError> {
    for (value, words) in rows {
        let told = format!(in alloc; "{value}")?;
        if told.as_str() != *words {
            return Ok(false);
        }
    }
    Ok(true)
}
