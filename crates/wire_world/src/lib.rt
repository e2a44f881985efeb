//! The rehearsal of a list of events: consoles, receivers and the network between them, in memory;
//! and what holds of every such list.
//!
//! [`rehearse`] answers a reply for each event, and each receiver's slots at the end. Its contract
//! is the product's headline: in the window, the slots are the levels that the show means at the
//! latest tick. The [`laws`] say so of the definitions alone, which know no link, no desk and no
//! receiver's records; a law is called where its words are needed, and does nothing when it runs.
//! They speak of [`Happening`]s, which [`rehearse_compactly`] takes: each [`Event`] is one.
//!
//! ```
//! let setup = Setup { show: 0, base: 1, identity };
//! let events = [Event { moment: 0, what: What::Tick(0) }];
//! let report = rehearse::<StepFader>(rt.alloc(), &[show], &[setup], &[1], &events, &[])?;
//! // report.replies has the reply to each event; report.last each receiver's slots at the end.
//! ```
#![tactic(auto)]

mod answers;
mod compact_reply;
mod event;
mod few_offers;
mod handover;
mod happen;
mod happening;
mod incident;
pub mod laws;
mod listening;
mod lows;
mod opening;
mod packets;
mod perform;
mod queue;
mod rehearsal;
mod releasing;
mod replay;
mod reply;
mod report;
mod row;
mod setup;
mod shelf;
mod shelves;
mod showing;
mod stage;
mod step;
mod steps;

pub use compact_reply::CompactReply;
pub use console::Offers;
pub use event::{Event, What};
pub use happening::{Happening, Occurrence};
pub use rehearsal::{rehearse, rehearse_compactly};
pub use rehearsal_faults::Fault;
pub use reply::{Reply, Skip};
pub use report::{CompactReport, Report};
pub use setup::Setup;
