ghost use Rattle.std.specs.Prelude.{◌≡◌, IfOk};

use crate::held_record::HeldRecord;
use crate::leading::Leading;
use crate::link_watch::LinkTeller;
use crate::live_booth::LiveBooth;
use crate::live_job::Playbill;
use crate::locked_network::LockedNetwork;
use crate::opening::clock_text;
use crate::screen::{Replies, Screen, open_replies};
use crate::standard::Standard;
use crate::start_lines::StartLines;
use live_machine::NightInput;
use night_lines::Place;
use night_opening::{
    counted_pause, missing_cid_lock, missing_record_lock, opening_of, recording_of,
};
use night_record::NightOpening;
use remarks::{Failure, JobFault, of_lock, of_missing, run_end};
use std::time::Instant;
use system_devices::{CidLock, Pause, Record, TypedInput};

/// What a live night plays from and to, before it begins.
#[derive(Drop)]
pub struct LiveDevices<'a> {
    input: TypedInput<'a>,
    screen: Screen,
    record: Option<HeldRecord<'a>>,
    /// How the record begins, or goes on.
    pub opening: NightOpening,
    pub network: LockedNetwork,
}

impl<'a> LiveDevices<'a> {
    /// Opens them: the record first, since of a night that is on its file is told.
    ///
    /// # Errors
    ///
    /// Where a device cannot be had, or the record is of another night.
    pub fn open(
        rt: &'a HostRuntime,
        bill: &Playbill<'a, '_>,
        standard: Standard<'a>,
    ) -> Result<Self, JobFault>
        ensures cid { IfOk result (λ devices. devices.network.lock.cid ≡ bill.now.night.now.cid) }
    {
        let record = HeldRecord::open(rt, &bill.words)?;
        let (replies, network) = open_behind(rt, bill)?;
        let text = record.as_ref().map(HeldRecord::text);
        let opening = opening_of(bill, clock_text(rt), &text)?;
        let Standard { input, messages } = standard;
        Ok(LiveDevices {
            input,
            screen: Screen::new(rt, replies, messages),
            record,
            opening,
            network,
        })
    }

    /// With a record that is held, and how that goes on.
    ///
    /// # Errors
    ///
    /// Where another device cannot be had.
    pub fn behind(
        rt: &'a HostRuntime,
        bill: &Playbill<'a, '_>,
        standard: Standard<'a>,
        held: (HeldRecord<'a>, NightOpening),
    ) -> Result<Self, JobFault>
        ensures cid { IfOk result (λ devices. devices.network.lock.cid ≡ bill.now.night.now.cid) }
    {
        let (record, opening) = held;
        let (replies, network) = open_behind(rt, bill)?;
        let Standard { input, messages } = standard;
        Ok(LiveDevices {
            input,
            screen: Screen::new(rt, replies, messages),
            record: Some(record),
            opening,
            network,
        })
    }

    /// What stands in the record, where there is one.
    pub fn record_text(&self) -> Option<&[u8]> {
        self.record.as_ref().map(HeldRecord::text)
    }

    /// Tells which locks a night of these devices lacks.
    pub fn tell_missing_locks(&mut self)
        ensures lock { self.new.network.lock.cid ≡ self.old.network.lock.cid }
    {
        if let Some(line) = missing_cid_lock(self.network.lock.is_had()) {
            self.screen.tell(line);
        }
        let record_lock = self.record.as_ref().map(HeldRecord::has_lock);
        if let Some(line) = missing_record_lock(record_lock) {
            self.screen.tell(line);
        }
    }

    /// Tells which locks the night lacks, and then how it begins, or from which place it goes on.
    ///
    /// # Errors
    ///
    /// Where memory is refused.
    pub fn tell_start(
        &mut self,
        rt: &HostRuntime,
        bill: &Playbill<'_, '_>,
        place: Place,
    ) -> Result<(), Failure>
        ensures lock { self.new.network.lock.cid ≡ self.old.network.lock.cid }
    {
        self.tell_missing_locks();
        let length = self.record.as_ref().map_or(0, HeldRecord::length);
        let recorded = recording_of(&bill.words, &self.opening.lines, length, place);
        let LiveDevices {
            network,
            screen,
            ..
        } = self;
        let lines = StartLines {
            night: bill.night,
            show: bill.show,
            network: network.shared(),
            recorded,
            followed: None,
        };
        run_end(lines.tell(rt, screen), bill.show, None)
    }

    /// Begins the night, and its record last, so that nothing changes in a file before all else is
    /// had. The packets of the night leave under the CID whose lock is held.
    ///
    /// # Errors
    ///
    /// Where the clock or the record fails.
    pub fn begin(
        self,
        rt: &'a HostRuntime,
        bill: &Playbill<'_, '_>,
        slot: &'a mut Option<LockedNetwork>,
    ) -> Result<Leading<'a>, JobFault>
        requires { self.network.lock.cid ≡ bill.now.source.cid }
    {
        let LiveDevices {
            input,
            mut screen,
            record,
            opening,
            network,
        } = self;
        let pause = pause_before(rt, &record, &opening)?;
        let record = match record {
            Some(record) => record.begin(rt, &opening, screen.messages())?,
            None => Record::none(),
        };
        let input = NightInput::new(input, bill.words.ends_with_input);
        let network: &LockedNetwork = slot.insert(network);
        let mut booth = LiveBooth::new(rt, pause.until, input, record, screen);
        booth.watch(LinkTeller::new(rt, network.shared()));
        Ok(Leading {
            booth,
            network,
            passed: pause.milliseconds,
        })
    }
}

// The devices behind a record: standard output, the lock of the CID, and the sockets, which hold it.
fn open_behind(
    rt: &HostRuntime,
    bill: &Playbill<'_, '_>,
) -> Result<(Replies, LockedNetwork), JobFault>
    ensures cid { IfOk result (λ opened. opened.1.lock.cid ≡ bill.now.night.now.cid) }
{
    let replies = match open_replies(rt) {
        Ok(replies) => replies,
        Err(fault) => return Err(JobFault::Run(of_missing(fault))),
    };
    let lock = match CidLock::take(rt, bill.night.cid) {
        Ok(lock) => lock,
        Err(fault) => return Err(JobFault::Run(of_lock(fault))),
    };
    let network = LockedNetwork::open(rt, bill.night, lock)?;
    Ok((replies, network))
}

// How long a record had not been written: a night that begins does so now.
fn pause_before(
    rt: &HostRuntime,
    record: &Option<HeldRecord<'_>>,
    opening: &NightOpening,
) -> Result<Pause, Failure> {
    let pause = record.as_ref().and_then(HeldRecord::pause);
    match counted_pause(opening, pause) {
        Some(pause) => Ok(pause),
        None => Ok(Pause {
            until: now(rt)?,
            milliseconds: 0,
        }),
    }
}

/// The moment of the system's clock.
///
/// # Errors
///
/// `Device` where it cannot be read.
pub fn now(rt: &HostRuntime) -> Result<Instant, Failure> {
    Instant::now(rt).map_err(|error| Failure::of_device("the clock", error.kind()))
}
