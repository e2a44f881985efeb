ghost use Rattle.std.specs.Prelude.{OnOk};
ghost use Rattle.cmd_live.specs.Beginning.{CanFollow};

use crate::followed_main::CaughtUp;
use crate::live_booth::LiveBooth;
use crate::live_devices::now;
use crate::live_job::{MainWords, Playbill};
use crate::opening::head_of;
use crate::reading::record_lines;
use crate::watched_main::WatchedMain;
use cmd_live::{Backup, Ending, Night, Silent};
use devices::Link;
use fade_core::{Fader, StepFader};
use live_machine::FollowEnd;
use night_lines::{MainNight, Place};
use night_opening::lines_to_follow;
use night_record::{NightLines, RecordHead};
use remarks::{JobFault, Refusal};
use std::time::Instant;
use system_devices::{AppendedLines, are_lines_there};

/// The record of a main as it grows, behind its head, and what is typed meanwhile.
#[derive(Drop)]
pub struct MainRecord<'w> {
    pub words: MainWords<'w>,
    head: RecordHead,
    pub lines: AppendedLines,
    /// When the newest line came, or the following began.
    pub last: Instant,
    /// Behind the lines that stood there at the start.
    pub has_begun: bool,
    pub typed: NightLines,
    pub input_ended: bool,
    /// Why the newest end came.
    pub ending: Ending,
}

impl<'w> MainRecord<'w> {
    /// Opens the record of a main, where that is of the same show and base, and of another CID.
    ///
    /// # Errors
    ///
    /// Why it is not followed.
    pub fn open(
        rt: &HostRuntime,
        bill: &Playbill<'_, '_>,
        words: MainWords<'w>,
    ) -> Result<Self, JobFault> {
        let night = head_of(rt, bill)?;
        let opened = now(rt)?;
        let found = record_lines(rt, words.file, words.patience.into())?;
        let (head, lines) = lines_to_follow(&night, found)?;
        Ok(MainRecord {
            words,
            head,
            lines,
            last: opened,
            has_begun: false,
            typed: NightLines::new(),
            input_ended: false,
            ending: Ending::Silent,
        })
    }

    /// Takes up what stood in the record when it was opened, over no link; `None` where the night
    /// is over by then.
    ///
    /// # Errors
    ///
    /// `Record` at a line that no live night gives.
    pub fn catch_up<'a>(
        mut self,
        rt: &'a HostRuntime,
        night: &mut Night<StepFader>,
        booth: &mut LiveBooth<'a>,
    ) -> Result<Option<CaughtUp<'w>>, JobFault>
        requires { CanFollow ⟦<StepFader as Fader>⟧.stands_for night.old }
        ensures { OnOk result (CanFollow ⟦<StepFader as Fader>⟧.stands_for night.new) }
    {
        if follow_till_end(rt, night, &mut self, booth, &mut Silent)? {
            return Ok(None);
        }
        Ok(Some(CaughtUp::of(self)))
    }

    /// Whether its name still leads to the record, and that has all lines that were given.
    pub fn is_there(&self, rt: &HostRuntime) -> bool {
        are_lines_there(rt, self.words.file, &self.lines)
    }

    /// The main, at a place of its night.
    pub fn night(&self, place: Place) -> MainNight<'w> {
        MainNight {
            file: self.words.file,
            cid: self.head.cid,
            priority: self.head.priority,
            place,
        }
    }
}

/// Follows a main over this link until that ends: whether the night is over then. Where the operator
/// asks where the night is, that is shown.
///
/// # Errors
///
/// `Record` at a line that no live night gives.
pub fn follow_till_end<'a, F: Fader, L: Link>(
    rt: &'a HostRuntime,
    night: &mut Night<F>,
    main: &mut MainRecord<'_>,
    booth: &mut LiveBooth<'a>,
    link: &mut L,
) -> Result<bool, JobFault>
    requires { CanFollow F.stands_for night.old }
    ensures { OnOk result (CanFollow F.stands_for night.new) }
{
    // One question a nanosecond would last for 584 years.
    for _turn in 0..u64::MAX {
        match follow_lines(rt, night, main, booth, link)? {
            FollowEnd::Asked => night.show_place(booth, link),
            FollowEnd::Ended => return Ok(false),
            FollowEnd::Over => return Ok(true),
        }
    }
    Ok(false)
}

// Follows a main over this link, and notes why that ended.
fn follow_lines<'a, F: Fader, L: Link>(
    rt: &'a HostRuntime,
    night: &mut Night<F>,
    main: &mut MainRecord<'_>,
    booth: &mut LiveBooth<'a>,
    link: &mut L,
) -> Result<FollowEnd, JobFault>
    requires { CanFollow F.stands_for night.old }
    ensures { OnOk result (CanFollow F.stands_for night.new) }
{
    let patience = main.words.patience;
    let mut backup = Backup::new(WatchedMain { rt, main, booth }, patience);
    let end = night.follow_main(&mut backup, link);
    let ending = backup.ending;
    main.ending = ending;
    match end {
        Some(end) => Ok(end),
        None => Err(JobFault::Record(Refusal::main_line(main.lines.number))),
    }
}
