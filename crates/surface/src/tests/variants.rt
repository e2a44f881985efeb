//! A full match on each public enum: a variant more, fewer or renamed does not compile.

use desk_core::{Command, Refused, Ticked};
use master_core::NoMaster;
use patch_core::RigFault;
use playback_core::NoMove;
use sacn_packet::Unreadable;
use sacn_receiver::Ignored;
use sacn_source::Offered;
use show_core::BuildFault;
use show_reader::ShowFault;

fn build_fault(fault: BuildFault) -> u8 {
    match fault {
        BuildFault::Limit => 1,
        BuildFault::Memory => 2,
    }
}

fn show_fault(fault: ShowFault) -> (u8, u32) {
    match fault {
        ShowFault::TooLong => (1, 0),
        ShowFault::Ident(line) => (2, line),
        ShowFault::MissingNumber(line) => (3, line),
        ShowFault::BadNumber(line) => (4, line),
        ShowFault::BadLevel(line) => (5, line),
        ShowFault::BadTime(line) => (6, line),
        ShowFault::HalfPair(line) => (7, line),
        ShowFault::HalfTriple(line) => (8, line),
        ShowFault::Limit(line) => (9, line),
        ShowFault::Memory => (10, 0),
    }
}

fn no_move(reason: NoMove) -> u8 {
    match reason {
        NoMove::AtEnd => 1,
        NoMove::AtStart => 2,
        NoMove::NoCue => 3,
    }
}

fn no_master(reason: NoMaster) -> u8 {
    match reason {
        NoMaster::NoSub => 1,
        NoMaster::NoGroup => 2,
    }
}

fn rig_fault(fault: RigFault) -> u8 {
    match fault {
        RigFault::Universe => 1,
        RigFault::Memory => 2,
    }
}

fn command(command: Command) -> u8 {
    match command {
        Command::Go => 1,
        Command::Back => 2,
        Command::Goto(_cue) => 3,
        Command::Sub(_n, _byte) => 4,
        Command::Group(_n, _byte) => 5,
        Command::Master(_byte) => 6,
        Command::End => 7,
    }
}

fn ticked(ticked: Ticked) -> u8 {
    match ticked {
        Ticked::Live => 0,
        Ticked::Ending(i) => i,
    }
}

fn refused(refused: Refused) -> u8 {
    match refused {
        Refused::Backwards => 1,
        Refused::MomentTooLarge => 2,
        Refused::Ended => 3,
        Refused::TooSoon => 4,
        Refused::AtEnd => 5,
        Refused::AtStart => 6,
        Refused::NoCue => 7,
        Refused::NoSub => 8,
        Refused::NoGroup => 9,
    }
}

fn unreadable(fault: Unreadable) -> u8 {
    match fault {
        Unreadable::Short => 1,
        Unreadable::Preamble => 2,
        Unreadable::Identifier => 3,
        Unreadable::RootVector => 4,
        Unreadable::Length => 5,
        Unreadable::FramingVector => 6,
        Unreadable::Priority => 7,
        Unreadable::Universe => 8,
        Unreadable::Dmp => 9,
        Unreadable::Count => 10,
    }
}

fn offered(offered: Offered) -> (u8, u8) {
    match offered {
        Offered::Sent(number) => (1, number),
        Offered::Lost(number) => (2, number),
        Offered::Quiet => (3, 0),
    }
}

fn ignored(reason: Ignored) -> (u8, u8) {
    match reason {
        Ignored::Backwards => (1, 0),
        Ignored::Unreadable(fault) => (2, unreadable(fault)),
        Ignored::OtherUniverse => (3, 0),
        Ignored::Preview => (4, 0),
        Ignored::AltStart => (5, 0),
        Ignored::OutOfSequence => (6, 0),
        Ignored::SourcesFull => (7, 0),
    }
}

#[test]
fn each_enum(rt: HostRuntime) {
    assert!(rt; build_fault(BuildFault::Memory) == 2);
    assert!(rt; show_fault(ShowFault::Limit(7)) == (9, 7));
    assert!(rt; no_move(NoMove::NoCue) == 3);
    assert!(rt; no_master(NoMaster::NoGroup) == 2);
    assert!(rt; rig_fault(RigFault::Memory) == 2);
    assert!(rt; ticked(Ticked::Live) == 0 && ticked(Ticked::Ending(3)) == 3);
    assert!(rt; refused(Refused::NoGroup) == 9);
    assert!(rt; offered(Offered::Lost(5)) == (2, 5));
    assert!(rt; ignored(Ignored::Unreadable(Unreadable::Count)) == (2, 10));
    assert!(rt; ignored(Ignored::SourcesFull) == (7, 0));
}

#[test]
fn each_command(rt: HostRuntime) {
    let rows = [
        Command::Go,
        Command::Back,
        Command::Goto(9_999_999),
        Command::Sub(65535, 255),
        Command::Group(65535, 255),
        Command::Master(255),
        Command::End,
    ];
    for (place, row) in rows.iter().enumerate() {
        assert!(rt; usize::from(command(*row)) == place + 1);
    }
}
