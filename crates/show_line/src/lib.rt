//! What one line of a show text says.
//!
//! [`read_line`] needs the line and the record that it stands under, and answers what the line
//! says: a [`Statement`], which may be the lowest fault of its words. So a statement that opens,
//! lists or patches holds numbers in their ranges alone. What a whole text means is not known here.
//!
//! ```
//! let reading = read_line(None, b"CUE 2").unwrap();
//! // reading.statement opens cue 2, and owns the lines below it.
//! let faulty = read_line(None, b"CUE zero").unwrap();
//! // faulty.statement is Faulty(LineFault::BadNumber).
//! ```
#![tactic(auto)]

mod fault;
mod keyword;
mod line;
mod pairs;
mod statement;
mod triples;

pub use fault::LineFault;
pub use keyword::Keyword;
pub use line::{Reading, read_line};
pub use pairs::Pairs;
pub use statement::{Cleared, Record, Statement, Table};
pub use triples::{Triple, Triples};
