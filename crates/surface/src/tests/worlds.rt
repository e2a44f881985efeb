//! wire_world's `rehearse` with its six arguments, its `Reply` and `Report`: rehearse_termination,
//! rehearse_basic, setup_faults, skips and two_consoles_highest.
//!
//! Each list of events is written out, so the condition on strays is seen.

ghost use Rattle.std.specs.Prelude.{◌≡◌};
ghost use Rattle.wire_world.specs.declared.event.What.TheVariants.{Deliver as delivery};

use super::rows::{CID, S1, player, show_of};
use desk_core::{Command, Refused, Ticked};
use fade_core::{PlainFader, StepFader};
use sacn_packet::{SourceName, Unreadable};
use sacn_receiver::{Ignored, Taken};
use sacn_source::{Identity, Offered};
use std::process::Abort;
use std::test::Fail;
use wire_world::{Event, Fault, Offers, Reply, Report, Setup, Skip, What, rehearse};

fn console(rt: &impl Abort, show: usize) -> Setup {
    Setup {
        show,
        base: 1,
        identity: player(rt),
    }
}

const fn at(moment: u64, what: What) -> Event
    ensures { result ≡ record { moment = moment; what = what } }
{
    Event { moment, what }
}

const fn deliver(console: u16, k: u64) -> What
    ensures { result ≡ delivery 0 console 1 k }
{
    What::Deliver {
        receiver: 0,
        console,
        universe: 1,
        k,
    }
}

const GO: What = What::Order(0, Command::Go);

const TICK: What = What::Tick(0);

const SHOW: What = What::Show(0);

// What is told of an event.
#[derive(Clone, Copy)]
enum Told {
    Done,
    Refused(Refused),
    // The number of universe 1's packet.
    Live(u8),
    Ending(u8, u8),
    Taken(u8),
    Ended(u8),
    Ignored(Ignored),
    // Slot 1; the others are 0.
    Shown(u8),
    Skipped(Skip),
}

fn has_sent(offers: &Offers, number: u8) -> bool {
    let pairs: &[(u16, Offered)] = offers.pairs();
    pairs == [(1, Offered::Sent(number))].as_slice()
}

fn is_first(slots: &[u8; 512], first: u8) -> bool {
    slots[0] == first && slots[1..] == [0; 511]
}

fn is_told(reply: &Reply, told: Told) -> bool {
    match (reply, told) {
        (Reply::Done, Told::Done) => true,
        (Reply::Refused(refused), Told::Refused(wanted)) => *refused == wanted,
        (Reply::Ticked(Ticked::Live, offers), Told::Live(number)) => has_sent(offers, number),
        (Reply::Ticked(Ticked::Ending(i), offers), Told::Ending(wanted, number)) => {
            *i == wanted && has_sent(offers, number)
        }
        (Reply::Taken(taken), Told::Taken(number)) => {
            *taken
                == Taken {
                    sequence: number,
                    terminated: false,
                }
        }
        (Reply::Taken(taken), Told::Ended(number)) => {
            *taken
                == Taken {
                    sequence: number,
                    terminated: true,
                }
        }
        (Reply::Ignored(ignored), Told::Ignored(wanted)) => *ignored == wanted,
        (Reply::Shown(slots), Told::Shown(first)) => is_first(slots, first),
        (Reply::Skipped(skip), Told::Skipped(wanted)) => *skip == wanted,
        _ => false,
    }
}

fn are_told(report: &Report, wanted: &[Told], last: u8) -> bool {
    let replies: &[Reply] = report.replies.as_slice();
    let ends: &[[u8; 512]] = report.last.as_slice();
    if replies.len() != wanted.len() || ends.len() != 1 {
        return false;
    }
    for (reply, told) in replies.iter().zip(wanted) {
        if !is_told(reply, *told) {
            return false;
        }
    }
    is_first(&ends[0], last)
}

#[test]
fn rehearse_termination(rt: HostRuntime) -> Result<(), Fail> {
    let shows = [show_of(rt.alloc(), S1)?];
    let consoles = [console(&rt, 0)];
    let events = [
        at(0, GO),
        at(5000, TICK),
        at(5025, What::Order(0, Command::End)),
        at(5025, TICK),
        at(5025, deliver(0, 1)),
        at(5030, deliver(0, 0)),
        at(5030, SHOW),
    ];
    let wanted = [
        Told::Done,
        Told::Live(0),
        Told::Done,
        Told::Ending(1, 1),
        Told::Ended(1),
        Told::Ignored(Ignored::OutOfSequence),
        Told::Shown(0),
    ];
    let report = rehearse::<StepFader>(rt.alloc(), &shows, &consoles, &[1], &events, &[])?;
    assert!(rt; are_told(&report, &wanted, 0));
    Ok(())
}

#[test]
fn rehearse_basic(rt: HostRuntime) -> Result<(), Fail> {
    let shows = [show_of(rt.alloc(), S1)?];
    let consoles = [console(&rt, 0)];
    let events = [
        at(0, GO),
        at(1000, TICK),
        at(1000, deliver(0, 0)),
        at(2000, TICK),
        at(2000, SHOW),
        at(2010, deliver(0, 1)),
        at(2010, SHOW),
        at(2011, deliver(0, 1)),
        at(2022, TICK),
        at(2030, GO),
        at(2030, GO),
        at(2031, deliver(0, 2)),
    ];
    let wanted = [
        Told::Done,
        Told::Live(0),
        Told::Taken(0),
        Told::Live(1),
        Told::Shown(51),
        Told::Taken(1),
        Told::Shown(102),
        Told::Ignored(Ignored::OutOfSequence),
        Told::Refused(Refused::TooSoon),
        Told::Done,
        Told::Refused(Refused::AtEnd),
        Told::Skipped(Skip::NotSent),
    ];
    let report = rehearse::<StepFader>(rt.alloc(), &shows, &consoles, &[1], &events, &[])?;
    assert!(rt; are_told(&report, &wanted, 102));
    let report = rehearse::<PlainFader>(rt.alloc(), &shows, &consoles, &[1], &events, &[])?;
    assert!(rt; are_told(&report, &wanted, 102));
    Ok(())
}

// skips, and strays: an empty datagram and five bytes of the strays.
#[test]
fn skips_and_strays(rt: HostRuntime) -> Result<(), Fail> {
    let shows = [show_of(rt.alloc(), S1)?];
    let consoles = [console(&rt, 0)];
    let strays = [0, 0x10, 0, 0, 0x41];
    let events = [
        at(0, What::Order(1, Command::Go)),
        at(0, What::Show(1)),
        at(5, TICK),
        at(4, TICK),
        at(281_474_976_710_656, TICK),
        at(
            5,
            What::Stray {
                receiver: 0,
                from: 0,
                to: 0,
            },
        ),
        at(
            5,
            What::Stray {
                receiver: 0,
                from: 0,
                to: 5,
            },
        ),
    ];
    let wanted = [
        Told::Skipped(Skip::NoConsole),
        Told::Skipped(Skip::NoReceiver),
        Told::Live(0),
        Told::Skipped(Skip::Backwards),
        Told::Skipped(Skip::TooLarge),
        Told::Ignored(Ignored::Unreadable(Unreadable::Short)),
        Told::Ignored(Ignored::Unreadable(Unreadable::Short)),
    ];
    let report = rehearse::<StepFader>(rt.alloc(), &shows, &consoles, &[1], &events, &strays)?;
    assert!(rt; are_told(&report, &wanted, 0));
    Ok(())
}

#[test]
fn two_consoles_highest(rt: HostRuntime) -> Result<(), Fail> {
    let shows = [show_of(rt.alloc(), S1)?];
    let mut cid = CID;
    cid[15] = 0x32;
    let name = SourceName::new("cueplayer").expect(&rt, "a name");
    let other = Setup {
        show: 0,
        base: 1,
        identity: Identity::new(cid, name, 100).expect(&rt, "a priority"),
    };
    let consoles = [console(&rt, 0), other];
    let events = [
        at(0, What::Order(0, Command::Sub(1, 255))),
        at(0, What::Order(1, Command::Sub(1, 128))),
        at(0, TICK),
        at(0, What::Tick(1)),
        at(0, deliver(0, 0)),
        at(0, deliver(1, 0)),
        at(0, SHOW),
        at(25, What::Order(0, Command::End)),
        at(25, TICK),
        at(25, deliver(0, 1)),
        at(25, SHOW),
    ];
    let wanted = [
        Told::Done,
        Told::Done,
        Told::Live(0),
        Told::Live(0),
        Told::Taken(0),
        Told::Taken(0),
        Told::Shown(128),
        Told::Done,
        Told::Ending(1, 1),
        Told::Ended(1),
        Told::Shown(64),
    ];
    let report = rehearse::<StepFader>(rt.alloc(), &shows, &consoles, &[1], &events, &[])?;
    assert!(rt; are_told(&report, &wanted, 64));
    Ok(())
}

#[test]
fn setup_faults(rt: HostRuntime) -> Result<(), Fail> {
    let alloc = rt.alloc();
    let shows = [show_of(alloc, S1)?];
    let one = [console(&rt, 0)];
    let none = rehearse::<StepFader>(alloc, &shows, &[], &[1], &[], &[]);
    assert!(rt; matches!(none, Err(Fault::Consoles)));
    let twice = rehearse::<StepFader>(alloc, &shows, &one, &[1, 1], &[], &[]);
    assert!(rt; matches!(twice, Err(Fault::Receivers)));
    let lack = rehearse::<StepFader>(alloc, &shows, &[console(&rt, 1)], &[1], &[], &[]);
    assert!(rt; matches!(lack, Err(Fault::NoShow)));
    let wide = [show_of(alloc, b"PATCH 1 1<513@FL")?];
    let high = Setup {
        show: 0,
        base: 63999,
        identity: player(&rt),
    };
    let universe = rehearse::<StepFader>(alloc, &wide, &[high], &[1], &[], &[]);
    assert!(rt; matches!(universe, Err(Fault::Universe)));
    Ok(())
}
