//! The edge of the program as contracts see it: where bytes are written, where bytes, datagrams and
//! packets come from and go to, what each did, and what may fail outside.
//!
//! A device that tells has its doings in its value, so a contract can speak of them; one of the
//! system never tells. Devices over memory ([`memory`]) stand in for those of the system wherever a
//! run is tested: they tell, and fail at the calls that they are asked to fail at.
//!
//! ```
//! let mut out = MemoryOutput::new(rt.alloc(), 1, 1);
//! let first = out.write(b"one ");
//! let second = out.write(b"two ");
//! // The first call passed, and the second failed: out.bytes is b"one ".
//! ```
#![tactic(auto)]

mod datagrams;
mod feed;
mod link;
pub mod memory;
mod output;

pub use datagrams::Datagrams;
pub use feed::Feed;
pub use link::Link;
pub use output::{LinkFault, Output};
