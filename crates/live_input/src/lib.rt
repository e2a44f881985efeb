//! The input of a live night: it gives the commands that an operator types, each as a call at its
//! moment, and makes the ticks by itself.
//!
//! [`LiveInput`] decides, and touches nothing: a device tells it which bytes came, asks it at each
//! moment of the clock what is next, and carries that out. [`laws`] has what holds of every night.
//!
//! ```
//! let mut live = LiveInput::new();
//! let first = live.next(0);
//! // Given::Line: the first tick. Then Given::Until says how long to wait for what is typed.
//! ```
#![tactic(auto)]

mod given;
mod keys;
pub mod laws;
mod live;
mod progress;
mod reason;
mod request;
mod typed;

pub use given::{Given, GivenLine, InputLine, RefusedText};
pub use live::LiveInput;
pub use reason::Reason;
