//! The program: it reads its words, runs what they ask for, and reports how that ended. What its
//! commands promise together, from the lines of a play to the light on the stage, is in [`laws`].
//! The calls that its commands make stand in the crates below, and it passes them on.
#![tactic(auto)]

mod cards;
mod followed_main;
mod held_record;
mod jobs;
pub mod laws;
mod leading;
mod line_night;
mod link_watch;
mod live_booth;
mod live_devices;
mod live_job;
mod live_name;
mod live_night;
mod locked_network;
mod main_record;
mod network_lines;
mod opening;
mod own_record;
mod reading;
mod remarked;
mod screen;
mod standard;
mod start_lines;
mod watched_main;
mod words;

pub use cmd_faults::{RunFault, exit_status};
pub use cmd_listen::listen;
pub use cmd_play::play;
pub use cmd_rehearse::rehearse_text;
pub use cmd_show::{check, look};
use cmd_words::{Unread, read_or_explain};
pub use cmd_words::{Job, Name, WordsFault, read_words};
pub use devices::{Datagrams, Feed, Output};
use jobs::run;
use remarked::has_remarks;
use remarks::{JobEnd, JobFault, Remark};
use std::env;
use std::process::ExitCode;
use system_devices::{SystemOutput, remove_unused_record};
use words::UserWords;

fn end_of_words(rt: &HostRuntime, has_remarks: bool) -> JobEnd {
    let words = match env::args(&(UserWords::new(rt), rt.alloc())) {
        Ok(words) => words,
        Err(error) => return JobEnd::of_unread(error.kind()),
    };
    let Ok(words) = words.collect::<Vec<String>>(rt.alloc()) else {
        return JobEnd::of_memory();
    };
    match read_words(rt.alloc(), words.as_slice()) {
        Ok(job) => JobEnd::of_job(run(rt, job, has_remarks)),
        Err(fault) => {
            remove_unused_record(rt, None);
            end_of_fault(rt, fault, words.as_slice())
        }
    }
}

fn end_of_fault(rt: &HostRuntime, fault: WordsFault, words: &[String]) -> JobEnd {
    match fault {
        WordsFault::Refused(error) => {
            let shown = error.print(rt).map_err(|fault| fault.kind());
            JobEnd::of_text(error.use_stderr(), shown)
        }
        WordsFault::Unfit => match read_or_explain(rt.alloc(), words) {
            Err(Unread::Unfit(misfit)) => JobEnd::of_misfit(&misfit),
            _ => JobEnd::Fault(JobFault::Words(Remark::new())),
        },
        WordsFault::Memory => JobEnd::of_memory(),
    }
}

fn main(rt: HostRuntime) -> ExitCode {
    let has_remarks = has_remarks(&rt);
    let end = end_of_words(&rt, has_remarks);
    ExitCode::from(end.tell(has_remarks, &mut SystemOutput::new(rt.stderr())))
}
