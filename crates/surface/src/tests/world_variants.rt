//! As `variants`: wire_world's enums and structs, and `RunFault`.

use cmd_faults::RunFault;
use desk_core::Command;
use sacn_receiver::Taken;
use show_reader::ShowFault;
use std::test::Fail;
use wire_world::{Event, Fault, Reply, Report, Setup, Skip, What};

fn skip(skip: Skip) -> u8 {
    match skip {
        Skip::Backwards => 1,
        Skip::TooLarge => 2,
        Skip::NoConsole => 3,
        Skip::NoReceiver => 4,
        Skip::NotSent => 5,
    }
}

fn fault(fault: Fault) -> u8 {
    match fault {
        Fault::Consoles => 1,
        Fault::Receivers => 2,
        Fault::NoShow => 3,
        Fault::Universe => 4,
        Fault::Memory => 5,
    }
}

fn reply(reply: &Reply) -> u8 {
    match reply {
        Reply::Done => 1,
        Reply::Refused(_refused) => 2,
        Reply::Ticked(_ticked, offers) => 3 + offers.pairs().len() as u8,
        Reply::Taken(
            Taken {
                sequence: _,
                terminated: _,
            },
        ) => 4,
        Reply::Ignored(_ignored) => 5,
        Reply::Shown(slots) => slots[0],
        Reply::Skipped(_skip) => 7,
    }
}

fn what(what: What) -> u64 {
    match what {
        What::Order(console, _command) => u64::from(console),
        What::Tick(console) => u64::from(console),
        What::Deliver {
            receiver: _,
            console: _,
            universe: _,
            k,
        } => k,
        What::Stray {
            receiver: _,
            from: _,
            to,
        } => u64::from(to),
        What::Show(receiver) => u64::from(receiver),
    }
}

// The structs have these fields and no more.
fn base(setup: &Setup) -> u16 {
    let Setup {
        show: _,
        base,
        identity: _,
    } = setup;
    *base
}

fn moment(event: Event) -> u64 {
    let Event { moment, what: _ } = event;
    moment
}

fn sizes(report: &Report) -> (usize, usize) {
    let Report { replies, last } = report;
    (replies.len(), last.len())
}

fn run_fault(fault: RunFault) -> (u8, u64) {
    match fault {
        RunFault::Show(_fault) => (1, 0),
        RunFault::NoCue => (2, 0),
        RunFault::Base => (3, 0),
        RunFault::Line(line) => (4, u64::from(line)),
        RunFault::Script => (5, 0),
        RunFault::Setup(_fault) => (6, 0),
        RunFault::Device => (7, 0),
        RunFault::Lost(count) => (8, count),
        RunFault::Memory => (9, 0),
    }
}

#[test]
fn each_enum(rt: HostRuntime) -> Result<(), Fail> {
    assert!(rt; skip(Skip::NotSent) == 5);
    assert!(rt; fault(Fault::Memory) == 5);
    assert!(rt; reply(&Reply::Done) == 1);
    assert!(rt; reply(&Reply::Shown([9; 512])) == 9);
    assert!(rt; what(What::Tick(3)) == 3);
    assert!(rt; run_fault(RunFault::Lost(5)) == (8, 5));
    assert!(rt; run_fault(RunFault::Show(ShowFault::TooLong)) == (1, 0));
    let event = Event {
        moment: 7,
        what: What::Order(0, Command::Go),
    };
    assert!(rt; moment(event) == 7);
    let setup = Setup {
        show: 0,
        base: 1,
        identity: super::rows::player(&rt),
    };
    assert!(rt; base(&setup) == 1);
    let report = Report {
        replies: Vec::new(rt.alloc()),
        last: Vec::new(rt.alloc()),
    };
    assert!(rt; sizes(&report) == (0, 0));
    Ok(())
}
