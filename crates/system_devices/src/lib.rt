//! The devices of the system: files, standard input and output, sockets, and the lock of a CID.
//!
//! None of them tells what it gave or took, so hardly anything is said of them in contracts. An
//! output that holds nobody up ([`BoundedOutput`]) has a `LineQueue`, whose contract says what
//! becomes of each line; how long the system's calls take is measured, and not proved.
#![tactic(auto)]

mod appended_lines;
mod bounded_output;
mod cards;
mod cid_lock;
mod descriptor_poll;
mod fault;
mod host_name;
mod input;
mod locked_file;
mod machine;
mod messages;
mod named_card;
mod network;
mod network_look;
mod output;
mod path_looks;
mod record;
mod record_file;
mod record_lock;
mod routes;
mod shared_network;
mod socket;
mod sockets;
mod system_lines;
mod tied_socket;
mod typed_input;
mod way;
mod writers;
mod written_record;

pub use appended_lines::{AppendedLines, are_lines_there, lines_in_time};
pub use bounded_output::{BoundedOutput, Names, PolledWay, open_output};
pub use cards::read_cards;
pub use cid_lock::{CidLock, LockFault};
pub use fault::DeviceFault;
pub use host_name::machine_name;
pub use input::SystemInput;
pub use locked_file::Pause;
pub use machine::SystemClock;
pub use messages::{Messages, open_messages};
pub use named_card::source_by_name;
pub use network::Network;
pub use night_files::RecordFault;
pub use output::SystemOutput;
pub use packet_paths::{Leaving, NamedRefusal, NetworkRefusal, Path, Source};
pub use record::Record;
pub use record_file::{RecordFile, remove_unused_record};
pub use routes::route_to;
pub use shared_network::SharedNetwork;
pub use socket::{AddressText, ReceivingSocket, SocketFault};
pub use typed_input::TypedInput;
pub use writers::{wait_for_writers, written_files};
