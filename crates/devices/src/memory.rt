//! Devices over memory: they tell what they did, and some of their calls fail. Tests run the
//! program over them.

mod datagrams;
mod faults;
mod feed;
mod link;
mod output;

pub use datagrams::MemoryDatagrams;
pub use faults::Faults;
pub use feed::MemoryFeed;
pub use link::{MemoryLink, MemorySend};
pub use output::MemoryOutput;
