ghost use Rattle.std.specs.Prelude.{OnOk, length, ◌≤◌};
ghost use Rattle.cmd_live.specs.Beginning.{CanFollow};

use crate::leading::Following;
use crate::live_booth::LiveBooth;
use crate::live_devices::now;
use crate::live_job::Playbill;
use crate::main_record::{MainRecord, follow_till_end};
use cmd_live::Night;
use fade_core::{Fader, StepFader};
use night_opening::place_of;
use night_record::Lead;
use remarks::JobFault;
use std::time::Instant;

/// A main of which all is taken up that stood in its record.
#[derive(Drop)]
pub struct CaughtUp<'w> {
    main: MainRecord<'w>,
}

impl<'w> CaughtUp<'w> {
    /// This main.
    pub fn of(main: MainRecord<'w>) -> Self {
        CaughtUp { main }
    }

    /// Tells the operator whom the night follows. From now on lines are those that come, and the
    /// main may be silent for its patience.
    ///
    /// # Errors
    ///
    /// Where memory is refused, or the clock cannot be read.
    pub fn tell(
        self,
        rt: &HostRuntime,
        bill: &Playbill<'_, '_>,
        night: &Night<StepFader>,
        following: &mut Following<'_>,
    ) -> Result<FollowedMain<'w>, JobFault> {
        let mut main = self.main;
        following.tell_main(rt, bill, main.night(place_of(night)))?;
        main.last = now(rt)?;
        main.has_begun = true;
        Ok(FollowedMain { main })
    }
}

/// A main that is followed, as the operator was told.
#[derive(Drop)]
pub struct FollowedMain<'w> {
    main: MainRecord<'w>,
}

impl<'w> FollowedMain<'w> {
    /// Carries out the lines of the main as they come, and sends, until that ends; `None` where the
    /// main has ended the night.
    ///
    /// # Errors
    ///
    /// `Record` at a line that no live night gives; `Run` where the clock cannot be read.
    pub fn follow<'a>(
        self,
        rt: &'a HostRuntime,
        bill: &Playbill<'_, '_>,
        night: &mut Night<StepFader>,
        following: &mut Following<'a>,
    ) -> Result<Option<EndedMain<'w>>, JobFault>
        requires { CanFollow ⟦<StepFader as Fader>⟧.stands_for night.old }
        ensures { OnOk result (CanFollow ⟦<StepFader as Fader>⟧.stands_for night.new) }
    {
        let mut main = self.main;
        let mut link = following.link(rt, bill);
        if follow_till_end(rt, night, &mut main, following.booth(), &mut link)? {
            return Ok(None);
        }
        let now = now(rt)?;
        let lead = Lead::behind(night.moment(), now.duration_since(main.last));
        Ok(Some(EndedMain { main, lead, now }))
    }
}

/// A main that is followed no more, while its night goes on: so this process leads it.
#[derive(Drop)]
pub struct EndedMain<'w> {
    main: MainRecord<'w>,
    lead: Lead,
    now: Instant,
}

impl EndedMain<'_> {
    /// At which moment the night is led, and how long the main had been silent.
    pub fn lead(&self) -> Lead {
        self.lead
    }

    /// Why it is followed no more, in at most 40 bytes of words.
    pub fn words(&self) -> &'static str
        ensures { length result.now ≤ 40 }
    {
        self.main.ending.words()
    }

    /// Hands on what was typed and is not answered yet.
    pub fn hand_over(self, booth: &mut LiveBooth<'_>) {
        let main = self.main;
        booth.lead(self.now, main.typed.rest(), main.input_ended);
    }
}
