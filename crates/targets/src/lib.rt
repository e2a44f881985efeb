//! Where the packets of each universe go.
//!
//! A [`Target`] is an address for some universes or for all. [`Targets`] are those of a night, and
//! a [`TargetLink`] sends each packet to all addresses of its universe.
//!
//! ```
//! let mut targets = Targets::new();
//! targets.add(Target { universes: None, address });
//! // Each universe goes to this address: targets.addresses(7).as_slice() is [address].
//! ```
#![tactic(auto)]

mod address;
mod laws;
mod link;
mod memory;
mod misfit;
mod sender;
mod target;
mod targets;

pub use address::Address;
pub use laws::addressed_law;
pub use link::TargetLink;
pub use memory::{MemoryOffer, MemorySender};
pub use misfit::TargetMisfit;
pub use sender::Sender;
pub use target::{Target, Universes};
pub use targets::{Addresses, MOST_TARGETS, Targets};
