//! By which paths the packets of a night leave this machine: which one a packet has, where its
//! route leads, how long a look at that counts, and who takes its packets first.
//!
//! These are functions over values; nothing here asks the system.
//!
//! ```
//! let path = night.packet_path(host);
//! let PacketOffer { socket, sending } = night.offer_by(path, host);
//! ```
#![tactic(auto)]

mod addresses;
mod first_route;
mod hosts;
mod named_refusal;
mod night_paths;
mod night_socket;
mod open_fault;
mod path;
mod refused_route;
mod sockets;
mod takers;

pub use addresses::{destination, machine_by, mapped_address, socket_address};
pub use first_route::host_to_route;
pub use hosts::{packet_place, path_place};
pub use named_refusal::NamedRefusal;
pub use night_paths::{
    Leaving, NightPaths, PacketOffer, Paths, Source, Sources, first_source, path_source, show_row,
    source_at, source_place,
};
pub use night_socket::NightSocket;
pub use open_fault::OpenFault;
pub use path::{Path, sending_of};
pub use refused_route::{NetworkRefusal, RefusedRoute};
pub use sockets::{is_tie_due, is_tied, other_index, source_address};
pub use takers::{card_from, first_taker, is_taken_here};
