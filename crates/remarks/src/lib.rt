//! What is told behind the line of a fault: what was found, and what would be right.
//!
//! A [`Remark`] is at most 512 bytes of printable ASCII, put together of parts; of a part, as a
//! line of a file, at most 200 bytes are shown. [`Failure`] is why a job did not end well, and
//! [`Refusal`] why no night begins or goes on in a record, each with its remark.
//!
//! ```
//! let remark = plain("uuidgen prints one");
//! // remark.as_slice() is these bytes.
//! ```
#![tactic(auto)]

mod asking;
mod card;
mod device;
mod ended_run;
mod failure;
mod job_end;
mod listening;
mod misfit;
mod name;
mod refusal;
mod remark;
mod target;
mod text_line;
mod weight;

pub use asking::has_remarks;
pub use card::{DownCards, of_card, of_route};
pub use device::{no_lock, of_lock, of_missing, of_record};
pub use ended_run::{night_end, run_end};
pub use failure::{Failure, JobFault, LostPacket};
pub use job_end::{JobEnd, tell_remark};
pub use listening::of_listening;
pub use misfit::of_misfit;
pub use name::{NameText, of_name};
pub use refusal::{Refusal, RefusalLine};
pub use remark::{
    Remark, join, of_device, of_seeming, plain, push_shown, refused_line, seeming_line,
};
pub use target::of_target;
pub use text_line::{of_line, of_setup, of_show};
pub use weight::{of_weight, strict_end};
