//! What is read of a reader of bytes: its first bytes, or the next of them; and the lines of a text
//! that is read block by block.
//!
//! Where it is known which bytes a reader has left, as of one over memory, the contracts say which
//! of them were read, and that it has the others still.
//!
//! ```
//! let text = first_bytes(rt.alloc(), &mut file, LONGEST_TEXT + 1)?;
//! let line = ShortLines::new(table).next_line();
//! ```
#![tactic(auto)]

mod ahead;
mod block_source;
mod laws;
mod reading;
mod short_lines;

pub use block_source::BlockSource;
pub use laws::all_lines_law;
pub use reading::{Unread, first_bytes, read_some};
pub use short_lines::{ShortLine, ShortLines};
