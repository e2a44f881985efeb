ghost use Rattle.std.specs.Prelude.{◌≡◌};
ghost use Rattle.cmd_live.specs.Stands.{IsPlayable};

use crate::followed_main::EndedMain;
use crate::line_night::{link_of, night_end};
use crate::live_booth::LiveBooth;
use crate::live_devices::LiveDevices;
use crate::live_job::Playbill;
use crate::locked_network::LockedNetwork;
use crate::start_lines::StartLines;
use cmd_live::Night;
use fade_core::{Fader, StepFader};
use night_lines::{MainNight, Place, leading_line, over_line};
use night_opening::new_recording;
use remarks::{Failure, JobFault, run_end};
use system_devices::SharedNetwork;
use targets::TargetLink;

/// A night that has begun, and that this process leads.
#[derive(Drop)]
pub struct Leading<'a> {
    pub booth: LiveBooth<'a>,
    pub network: &'a LockedNetwork,
    /// For how long nobody had written the record of a night that goes on, or of its main, in
    /// milliseconds.
    pub passed: u64,
}

impl<'a> Leading<'a> {
    /// Tells how a night begins at a place, and begins it.
    ///
    /// # Errors
    ///
    /// Where memory is refused, or the clock or the record fails.
    pub fn start(
        rt: &'a HostRuntime,
        bill: &Playbill<'_, '_>,
        mut devices: LiveDevices<'a>,
        place: Place,
        slot: &'a mut Option<LockedNetwork>,
    ) -> Result<Self, JobFault>
        requires { devices.network.lock.cid ≡ bill.now.source.cid }
    {
        devices.tell_start(rt, bill, place)?;
        devices.begin(rt, bill, slot)
    }

    /// Plays the night by what is typed, and then hands on what waits, and waits for writers.
    ///
    /// # Errors
    ///
    /// As those of [`night_end`].
    pub fn play(
        mut self,
        rt: &'a HostRuntime,
        bill: &Playbill<'_, '_>,
        night: &mut Night<StepFader>,
    ) -> Result<(), Failure>
        requires { IsPlayable ⟦<StepFader as Fader>⟧.stands_for night.old }
    {
        let network = self.network.shared();
        let mut link = link_of(rt, network, bill.night);
        let answer = night.live(self.passed, &mut self.booth, &mut link);
        let end = night_end(answer, bill.show, network, None);
        self.booth.finish();
        end
    }
}

/// A night that has begun, and follows a main: its operator's commands are not carried out.
#[derive(Drop)]
pub struct Following<'a> {
    night: Leading<'a>,
}

impl<'a> Following<'a> {
    /// Begins a night that follows a main. How it begins is told once that was taken up.
    ///
    /// # Errors
    ///
    /// Where the clock or the record fails.
    pub fn start(
        rt: &'a HostRuntime,
        bill: &Playbill<'_, '_>,
        mut devices: LiveDevices<'a>,
        slot: &'a mut Option<LockedNetwork>,
    ) -> Result<Self, JobFault>
        requires { devices.network.lock.cid ≡ bill.now.source.cid }
    {
        devices.tell_missing_locks();
        let night = devices.begin(rt, bill, slot)?;
        Ok(Following { night })
    }

    /// Where it is run from.
    pub fn booth(&mut self) -> &mut LiveBooth<'a> {
        &mut self.night.booth
    }

    /// What sends its packets.
    pub fn link(
        &self,
        rt: &'a HostRuntime,
        bill: &Playbill<'_, '_>,
    ) -> TargetLink<SharedNetwork<'a>> {
        link_of(rt, self.night.network.shared(), bill.night)
    }

    /// Tells whom the night follows, and where that is.
    ///
    /// # Errors
    ///
    /// Where memory is refused.
    pub fn tell_main(
        &mut self,
        rt: &HostRuntime,
        bill: &Playbill<'_, '_>,
        main: MainNight<'_>,
    ) -> Result<(), Failure> {
        let lines = StartLines {
            night: bill.night,
            show: bill.show,
            network: self.night.network.shared(),
            recorded: new_recording(&bill.words),
            followed: Some(main),
        };
        let told = lines.tell(rt, self.night.booth.screen());
        run_end(told, bill.show, None)
    }

    /// Leads from now on, behind a main that is followed no more, with what was typed and is not
    /// answered yet.
    pub fn lead(mut self, main: EndedMain<'_>) -> Leading<'a> {
        let lead = main.lead();
        let line = leading_line(lead.moment, main.words());
        self.night.passed = lead.silence;
        let booth = self.booth();
        booth.screen().tell(line.as_str().as_bytes());
        main.hand_over(booth);
        self.night
    }

    /// Tells that the main has ended the night at this moment, and ends it here.
    pub fn end(mut self, moment: u64) {
        let line = over_line(moment);
        self.booth().screen().tell(line.as_str().as_bytes());
        self.finish();
    }

    /// Hands on what waits, and waits for writers.
    pub fn finish(mut self) {
        self.booth().finish();
    }
}
