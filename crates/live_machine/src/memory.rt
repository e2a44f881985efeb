//! A clock and an input over memory: they tell what they did, and some of their calls fail.

mod clock;
mod input;

pub use clock::MemoryClock;
pub use input::{MemoryInput, MemoryWait};
