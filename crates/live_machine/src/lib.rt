//! What a live night asks of the machine: what time it is, and what was typed; and why the machine
//! did not do what it was asked for.
//!
//! A [`NightClock`] makes moments of what a [`MachineClock`] shows, and a [`NightInput`] says how
//! long a [`MachineInput`] is waited for. An [`InputEnd`] says when it is told that a night goes on
//! without its input. The machines of the system never tell what they did; those over memory
//! ([`memory`]) do, and stand in for them in tests.
//!
//! ```
//! let mut clock = NightClock::new(machine_clock, 0);
//! let mut input = NightInput::new(machine_input, false);
//! let moment = clock.moment()?;
//! let came = input.hear(moment, due, &mut block)?;
//! ```
#![tactic(auto)]

mod clock;
mod failure;
mod follow_end;
mod input;
mod input_end;
pub mod memory;

pub use clock::{MachineClock, NightClock, clock_law};
pub use failure::reason;
pub use follow_end::FollowEnd;
pub use input::{Came, MachineInput, NightInput, TURN};
pub use input_end::InputEnd;
