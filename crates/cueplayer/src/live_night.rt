ghost use Rattle.std.specs.Prelude.{◌≡◌};
ghost use Rattle.cmd_live.specs.Beginning.{CanFollow};
ghost use Rattle.cmd_live.specs.Stands.{IsPlayable};

use crate::followed_main::FollowedMain;
use crate::leading::{Following, Leading};
use crate::live_devices::LiveDevices;
use crate::live_job::{MainWords, Playbill};
use crate::locked_network::LockedNetwork;
use crate::main_record::MainRecord;
use crate::own_record::OwnRecord;
use crate::standard::Standard;
use cmd_live::Night;
use fade_core::{Fader, StepFader};
use night_opening::{new_night, open_night, place_of};
use remarks::{Failure, JobFault, Refusal};

/// How a night ended, unless it did not begin.
pub type NightEnd = Result<Result<(), Failure>, JobFault>;

/// Plays a night alone: one that begins, or goes on from its record.
///
/// # Errors
///
/// Why it did not begin.
pub fn play_alone<'a>(
    rt: &'a HostRuntime,
    bill: &Playbill<'a, '_>,
    standard: Standard<'a>,
    slot: &'a mut Option<LockedNetwork>,
) -> NightEnd
    requires { bill.now.source.cid ≡ bill.now.night.now.cid }
{
    let devices = LiveDevices::open(rt, bill, standard)?;
    let text = devices.record_text();
    let mut night: Night<StepFader> = open_night(rt.alloc(), bill, &devices.opening, &text)?;
    lead(rt, bill, devices, &mut night, slot)
}

/// Plays a spare: it takes up the record of a night that another process plays, and goes on with
/// the night as soon as that process has ended, unless the night is over by then.
///
/// # Errors
///
/// Why it did not begin.
pub fn play_spare<'a>(
    rt: &'a HostRuntime,
    bill: &Playbill<'a, '_>,
    name: &'a str,
    standard: Standard<'a>,
    slot: &'a mut Option<LockedNetwork>,
) -> NightEnd
    requires { bill.now.source.cid ≡ bill.now.night.now.cid }
{
    let record = OwnRecord::open(rt, bill, name)?;
    let mut night: Night<StepFader> = new_night(rt.alloc(), bill)?;
    take_over(rt, bill, record, &mut night, standard, slot)
}

/// Plays a backup behind a main: it takes up what the main did, follows it on, and leads once the
/// following has ended.
///
/// # Errors
///
/// Why it did not begin, or follows no more.
pub fn play_backup<'a>(
    rt: &'a HostRuntime,
    bill: &Playbill<'a, '_>,
    words: MainWords<'a>,
    standard: Standard<'a>,
    slot: &'a mut Option<LockedNetwork>,
) -> NightEnd
    requires { bill.now.source.cid ≡ bill.now.night.now.cid }
{
    let main = MainRecord::open(rt, bill, words)?;
    let devices = LiveDevices::open(rt, bill, standard)?;
    let mut night: Night<StepFader> = new_night(rt.alloc(), bill)?;
    let following = Following::start(rt, bill, devices, slot)?;
    catch_up(rt, bill, main, following, &mut night)
}

// Begins a night where it is, and plays it.
fn lead<'a>(
    rt: &'a HostRuntime,
    bill: &Playbill<'_, '_>,
    devices: LiveDevices<'a>,
    night: &mut Night<StepFader>,
    slot: &'a mut Option<LockedNetwork>,
) -> NightEnd
    requires cid { devices.network.lock.cid ≡ bill.now.source.cid }
    requires stands { IsPlayable ⟦<StepFader as Fader>⟧.stands_for night.old }
{
    let leading = Leading::start(rt, bill, devices, place_of(night), slot)?;
    Ok(leading.play(rt, bill, night))
}

// Stands by, and goes on with the night unless that is over by then.
#[tactic(auto, using(night_opening::specs::Opening::playable))]
fn take_over<'a>(
    rt: &'a HostRuntime,
    bill: &Playbill<'a, '_>,
    record: OwnRecord<'a>,
    night: &mut Night<StepFader>,
    standard: Standard<'a>,
    slot: &'a mut Option<LockedNetwork>,
) -> NightEnd
    requires cid { bill.now.source.cid ≡ bill.now.night.now.cid }
    requires stands { CanFollow ⟦<StepFader as Fader>⟧.stands_for night.old }
{
    let ended = record.stand_by(night)?;
    if night.is_over() {
        return Ok(Ok(()));
    }
    let devices = LiveDevices::behind(rt, bill, standard, ended.into_held()?)?;
    lead(rt, bill, devices, night, slot)
}

// Takes up what the main has done, tells whom the night follows, and follows on.
fn catch_up<'a>(
    rt: &'a HostRuntime,
    bill: &Playbill<'_, '_>,
    main: MainRecord<'_>,
    mut following: Following<'a>,
    night: &mut Night<StepFader>,
) -> NightEnd
    requires { CanFollow ⟦<StepFader as Fader>⟧.stands_for night.old }
{
    let Some(main) = main.catch_up(rt, night, following.booth())? else {
        return Err(JobFault::Record(Refusal::main_is_over()));
    };
    let main = main.tell(rt, bill, night, &mut following)?;
    follow(rt, bill, main, following, night)
}

// Follows a main until that ends, and leads then, unless it has ended the night.
#[tactic(auto, using(night_opening::specs::Opening::playable))]
fn follow<'a>(
    rt: &'a HostRuntime,
    bill: &Playbill<'_, '_>,
    main: FollowedMain<'_>,
    mut following: Following<'a>,
    night: &mut Night<StepFader>,
) -> NightEnd
    requires { CanFollow ⟦<StepFader as Fader>⟧.stands_for night.old }
{
    match main.follow(rt, bill, night, &mut following) {
        Ok(Some(main)) => Ok(following.lead(main).play(rt, bill, night)),
        Ok(None) => {
            following.end(night.moment());
            Ok(Ok(()))
        }
        Err(fault) => {
            following.finish();
            Err(fault)
        }
    }
}
