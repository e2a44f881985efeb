//! What is told of the ways to the nodes of a night.
//!
//! A [`SourceState`] says how an address of this machine is, and a [`Trouble`] what is wrong with
//! the way to a host. A [`LinkWatch`] remembers what was told of each, and answers a look with the
//! notices that are new. [`Sending`] decides whether and how a packet is offered to the system.
//! Nothing here looks at the system.
#![tactic(auto)]

mod laws;
mod link_watch;
mod look;
mod notice;
mod path;
mod sending;
mod source;
mod watch;

pub use laws::{paths_law, sources_law};
pub use link_watch::{DueLook, LinkWatch, look_time};
pub use look::{HostPath, MOST_SOURCES, NetworkLook};
pub use notice::{LinkNotice, LinkNotices, PathNotice, SourceNotice};
pub use path::{CardAddress, PathState, Trouble, trouble_of};
pub use sending::Sending;
pub use source::{SourceState, source_state};
pub use watch::{PathLook, PathWatch, SourceWatch};
