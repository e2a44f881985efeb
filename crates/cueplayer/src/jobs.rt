ghost use Rattle.std.specs.Prelude.{◌≤◌, All};
ghost use Rattle.cmd_words.specs.Job.{IsJobInRange};

use crate::line_night::play_lines;
use crate::live_job::{LiveWords, MainWords, play_live};
use crate::reading::{file_text, script_text, show_text};
use crate::standard::HeldStandard;
use cmd_faults::RunFault;
use cmd_words::{Job, LiveOptions, Name, Night};
use fade_core::StepFader;
use remarks::{Failure, JobFault, Remark};
use show_jobs::{CueLook, CueSlots, check_show, explain_show, list_cues, look_at, show_slots};
use std::io::{BufWriter, Stdout};
use stream_jobs::{ListenPlace, listen_at, rehearse_show, watch_lines};
use system_devices::{ReceivingSocket, SocketFault, SystemInput, SystemOutput};

// Bytes that a rehearsal gathers before it writes them.
const PRINTED: usize = 65_536;

/// Runs what the words ask for, and answers a remark on what was found.
pub fn run(rt: &HostRuntime, job: Job, has_remarks: bool) -> Result<Remark, JobFault>
    requires { IsJobInRange job }
{
    match job {
        Job::Check { show } => return check_file(rt, show.as_str(), false),
        Job::CheckStrictly { show } => return check_file(rt, show.as_str(), true),
        Job::Look { show, cue, cid } => return Ok(look_at_file(rt, show.as_str(), cue, cid)?),
        Job::Slots { show, cue, base } => return Ok(show_file(rt, show.as_str(), cue, base)?),
        Job::Play {
            show,
            to,
            cid,
            priority,
            base,
        } => return play_lines(rt, &Night::plain(show, to, cid, priority, base)),
        Job::PlayNight(night) => return play_lines(rt, &night),
        Job::Explain { show } => explain_file(rt, show.as_str())?,
        Job::Cues { show, is_json } => list_file(rt, show.as_str(), is_json)?,
        Job::Live { night, options } => live(rt, night, &options)?,
        Job::Rehearse { show, script } => rehearse(rt, show.as_str(), script.as_str())?,
        Job::Listen {
            at,
            universe,
            count,
        } => listen(rt, at, universe, count, has_remarks)?,
        Job::Watch { universes } => watch(rt, universes.as_slice())?,
    }
    Ok(Remark::new())
}

/// A socket is not had.
pub fn of_socket_fault(fault: SocketFault) -> Failure {
    Failure::of_device(fault.address.as_str(), fault.kind)
}

/// Standard output.
pub fn output(rt: &HostRuntime) -> SystemOutput<Stdout> {
    SystemOutput::new(rt.stdout())
}

fn check_file(rt: &HostRuntime, show: &str, is_strict: bool) -> Result<Remark, JobFault> {
    let text = show_text(rt, show)?;
    check_show(rt.alloc(), text.as_slice(), is_strict, &mut output(rt))
}

fn explain_file(rt: &HostRuntime, show: &str) -> Result<(), Failure> {
    let text = show_text(rt, show)?;
    explain_show(rt.alloc(), text.as_slice(), &mut output(rt))
}

fn list_file(rt: &HostRuntime, show: &str, is_json: bool) -> Result<(), Failure> {
    let text = show_text(rt, show)?;
    list_cues(rt.alloc(), text.as_slice(), is_json, &mut output(rt))
}

fn look_at_file(rt: &HostRuntime, show: &str, cue: u32, cid: [u8; 16]) -> Result<Remark, Failure> {
    let text = show_text(rt, show)?;
    let show = text.as_slice();
    let look = CueLook { show, cue, cid };
    look_at(rt.alloc(), look, &mut output(rt))
}

fn show_file(rt: &HostRuntime, show: &str, cue: u32, base: u16) -> Result<Remark, Failure> {
    let text = show_text(rt, show)?;
    let show = text.as_slice();
    let slots = CueSlots { show, cue, base };
    show_slots(rt.alloc(), slots, &mut output(rt))
}

fn live(rt: &HostRuntime, night: Night, options: &LiveOptions) -> Result<(), JobFault>
    requires { night.priority ≤ 200 }
{
    let main = options.main_file.as_ref().map(|file| MainWords {
        file: file.as_str(),
        patience: options.patience,
    });
    let words = LiveWords {
        record_file: options.record_file.as_ref().map(Name::as_str),
        resumes: options.resumes,
        is_spare: options.is_spare,
        start: options.start,
        main,
        ends_with_input: options.ends_with_input,
    };
    play_live(rt, night, words)
}

fn listen(
    rt: &HostRuntime,
    at: ([u8; 4], u16),
    universe: u16,
    count: u32,
    has_remarks: bool,
) -> Result<(), Failure>
    requires { (1 ≤ universe) × (universe ≤ 63999) }
{
    let _held = HeldStandard::open(rt)?;
    let mut source = ReceivingSocket::bind(rt, at).map_err(of_socket_fault)?;
    let address = source.address();
    let host = at.0;
    let place = ListenPlace {
        address: address.as_str(),
        host,
        universe,
        count,
    };
    let mut err = SystemOutput::new(rt.stderr());
    listen_at(&mut source, place, has_remarks, &mut output(rt), &mut err)
}

// Watches universes by the lines of standard input.
fn watch(rt: &HostRuntime, universes: &[u16]) -> Result<(), Failure>
    requires { All (λ u. (1 ≤ u) × (u ≤ 63999)) universes.now }
{
    let mut input = SystemInput::new(rt.stdin());
    watch_lines(rt.alloc(), &mut input, universes, &mut output(rt))
}

// Prints a rehearsal through a buffer, since its lines are many.
fn rehearse(rt: &HostRuntime, show: &str, script: &str) -> Result<(), Failure> {
    let show = file_text(rt, show)?;
    let script = script_text(rt, script)?;
    let Ok(buffer) = BufWriter::with_capacity(rt.alloc(), PRINTED, rt.stdout()) else {
        return Err(Failure::from(RunFault::Memory));
    };
    let mut out = SystemOutput::new(buffer);
    rehearse_show::<StepFader, _>(rt.alloc(), show.as_slice(), script.as_slice(), &mut out)
}
