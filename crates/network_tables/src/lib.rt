//! What the system's tables of its network say.
//!
//! A line of the table of routes is a [`Route`], and one of the table of neighbors a [`Neighbor`],
//! or is none. [`best_route`] reads the routes one by one, and so finds the one that leads to a
//! host; [`card_state`] reads what the files of a card say. Nothing here opens a file.
#![tactic(auto)]

mod card;
mod card_tables;
mod choice;
mod fields;
mod group;
mod hidden_cards;
mod holder;
mod laws;
mod neighbor;
mod neighbor_table;
mod route;
mod route_table;
mod table;
mod texts;
mod tree;

pub use card::{CardState, card_state};
pub use card_tables::{add_others, card_networks, own_addresses};
pub use choice::{CardRefusal, CardWord, choose};
pub use group::is_multicast;
pub use hidden_cards::HiddenCards;
pub use holder::{Holder, card_among, holder_of, host_beside, is_widest};
pub use laws::{best_route_law, silence_law};
pub use neighbor::{Neighbor, SILENCE, silence_after, silence_toward};
pub use neighbor_table::next_neighbor;
pub use route::{CardName, Route, better};
pub use route_table::best_route;
pub use table::{Card, Cards, MOST_CARDS, row_name};
pub use texts::{CardText, HostText, card_text, host_text};
pub use tree::{OwnAddresses, TreeLine};
