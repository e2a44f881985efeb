//! The streams of one E1.31 source: which frames go out, under which numbers, and how each ends.
//!
//! A [`Sender`] is offered a universe's frame at rising moments. A packet goes out where the frame
//! has changed, a few times more behind a change, and from time to time to keep the stream alive; a
//! failed send uses its number all the same. Terminations tell receivers that a stream ends.
//!
//! ```
//! let name = SourceName::new("cueplayer").unwrap();
//! let identity = Identity::new([7; 16], name, 100).unwrap();
//! let mut link = MemoryLink::new(rt.alloc(), 0, 0);
//! let mut sender = Sender::open(rt.alloc(), identity, &[1])?;
//! let offered = sender.offer(0, 1, &[255; 512], &mut link);
//! // `offered` is Sent(0), and link.sends holds the packet of 638 bytes.
//! ```
#![tactic(auto)]

mod identity;
mod lane;
pub mod laws;
mod offered;
mod pace;
mod sender;
mod universes;

pub use devices::{Link, LinkFault};
pub use identity::Identity;
pub use offered::Offered;
pub use sender::Sender;
