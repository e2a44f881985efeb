//! Whether a live night may open, how, and what it tells at its start.
//!
//! [`check_fit`] refuses a show that cannot be played as the night asks. [`live_name`] is the name by
//! which it sends where none was given, [`head_of`] the head of its record, [`opening_of`] how it
//! begins or goes on by what stands there, and [`open_night`] the night that has begun, or gone on
//! behind the lines of its record. [`night_start_lines`] are told as it begins.
#![tactic(auto)]

mod fit;
mod head;
mod interrupts;
mod led_line;
mod missing_locks;
mod night_name;
mod night_start;
mod opening;
mod other_record;
mod pause;
mod playbill;
mod recording;
mod refused_card;
mod run_fault;

pub use fit::check_fit;
pub use head::{ClockText, head_of};
pub use interrupts::is_interruptible;
pub use led_line::led_refusal_line;
pub use missing_locks::{missing_cid_lock, missing_record_lock};
pub use night_name::live_name;
pub use night_start::{NightAtStart, night_start_lines};
pub use opening::{new_night, open_night, opening_of};
pub use other_record::{lines_to_follow, lines_to_take_up, opening_behind};
pub use pause::counted_pause;
pub use playbill::{LiveWords, MainWords, Playbill};
pub use recording::{new_recording, place_of, recording_of};
pub use refused_card::{of_refused_card, of_refused_route};
