//! The E1.31 (streaming ACN) data packet: the bytes that carry one universe's slots.
//!
//! [`encode`] writes a packet of 638 bytes, and [`parse`] reads one from a datagram or names the
//! first fault that it has. [`renumber`] and [`refill`] keep a packet that was written for the next
//! one of its stream. Which packets a source sends, and which a receiver takes, is not known here.
//!
//! ```
//! let header = Header {
//!     cid: [7; 16],
//!     name: SourceName::new("dimmer test").unwrap(),
//!     priority: 100,
//!     sequence: 0,
//!     options: 0,
//!     universe: 1,
//! };
//! let mut datagram = [0; 638];
//! encode(&header, &[255; 512], &mut datagram);
//! let packet = parse(&datagram).unwrap();
//! // packet.universe() is 1, and packet.slots() are 512 times 255.
//! ```
#![tactic(auto)]

mod bytes;
mod data_packet;
mod kept;
pub mod laws;
mod reader;
mod source_name;
mod unreadable;
mod writer;

pub use data_packet::DataPacket;
pub use kept::{refill, renumber, slots_in};
pub use reader::{TOP_UNIVERSE, parse};
pub use source_name::SourceName;
pub use unreadable::Unreadable;
pub use writer::{Header, Slots, encode};
