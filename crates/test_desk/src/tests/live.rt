use console::Call;
use desk_core::{Command, Instruction};
use live_input::{Given, LiveInput, Reason};
use std::process::Abort;

const TICK: Call = Call::Tick;

const GO: Call = Call::Order(Instruction::Plain(Command::Go));

const BACK: Call = Call::Order(Instruction::Plain(Command::Back));

const DARK: Call = Call::Order(Instruction::Plain(Command::Master(0)));

const END: Call = Call::Order(Instruction::Plain(Command::End));

// What comes while the input waits, or what it gives when it is asked; each at its moment.
#[derive(Clone, Copy)]
enum Step<'a> {
    Typed(u64, &'a [u8]),
    Closed(u64, bool),
    Line(u64, Call, &'a [u8]),
    Refused(u64, &'a [u8], Reason),
    Where(u64),
    Help(u64),
    Until(u64, u64),
    Over(u64),
}

fn types(input: &mut LiveInput, moment: u64, bytes: &[u8]) -> bool {
    match input.next(moment) {
        Given::Until(_) if bytes.len() <= 4096 => {
            input.take_bytes(bytes);
            true
        }
        _ => false,
    }
}

fn closes(input: &mut LiveInput, moment: u64, ends: bool) -> bool {
    match input.next(moment) {
        Given::Until(_) => {
            input.close(ends);
            true
        }
        _ => false,
    }
}

fn gives(input: &mut LiveInput, moment: u64, call: Call, line: &[u8]) -> bool {
    match input.next(moment) {
        Given::Line(given) => {
            given.moment == moment && given.call == call && given.text.as_slice() == line
        }
        _ => false,
    }
}

fn refuses(input: &mut LiveInput, moment: u64, text: &[u8], reason: Reason) -> bool {
    match input.next(moment) {
        Given::Refused(given, why) => given.as_slice() == text && why == reason,
        _ => false,
    }
}

fn asks_where(input: &mut LiveInput, moment: u64) -> bool {
    match input.next(moment) {
        Given::Where(given) => given == moment,
        _ => false,
    }
}

fn asks_help(input: &mut LiveInput, moment: u64) -> bool {
    match input.next(moment) {
        Given::Help => true,
        _ => false,
    }
}

fn waits(input: &mut LiveInput, moment: u64, until: u64) -> bool {
    match input.next(moment) {
        Given::Until(given) => given == until,
        _ => false,
    }
}

fn is_over(input: &mut LiveInput, moment: u64) -> bool {
    match input.next(moment) {
        Given::Over => true,
        _ => false,
    }
}

fn holds(input: &mut LiveInput, step: &Step<'_>) -> bool {
    match step {
        Step::Typed(moment, bytes) => types(input, *moment, bytes),
        Step::Closed(moment, ends) => closes(input, *moment, *ends),
        Step::Line(moment, call, line) => gives(input, *moment, *call, line),
        Step::Refused(moment, text, reason) => refuses(input, *moment, text, *reason),
        Step::Where(moment) => asks_where(input, *moment),
        Step::Help(moment) => asks_help(input, *moment),
        Step::Until(moment, until) => waits(input, *moment, *until),
        Step::Over(moment) => is_over(input, *moment),
    }
}

fn take_steps(rt: &impl Abort, input: &mut LiveInput, steps: &[Step<'_>]) {
    for (place, step) in steps.iter().enumerate() {
        assert!(rt; holds(input, step), "step {place}");
    }
}

#[test]
fn ordinary_night(rt: HostRuntime) {
    take_steps(
        &rt,
        &mut LiveInput::new(),
        &[
            Step::Line(0, TICK, b"0 tick\n"),
            Step::Typed(3, b"go\n"),
            Step::Line(10, GO, b"10 go\n"),
            Step::Until(10, 25),
            Step::Line(25, TICK, b"25 tick\n"),
            Step::Typed(26, b"Sub 3 50 ! the desk\nmaster H80\r\n"),
            Step::Line(50, TICK, b"50 tick\n"),
            Step::Line(
                50,
                Call::Order(Instruction::Plain(Command::Sub(3, 128))),
                b"50 Sub 3 50 ! the desk\n",
            ),
            Step::Line(
                51,
                Call::Order(Instruction::Plain(Command::Master(128))),
                b"51 master H80\r\n",
            ),
            Step::Typed(60, b"end\n"),
            Step::Line(60, DARK, b"60 master 0\n"),
            Step::Typed(61, b"go\n"),
            Step::Refused(61, b"go", Reason::Ending),
            Step::Line(75, TICK, b"75 tick\n"),
            Step::Line(100, TICK, b"100 tick\n"),
            Step::Closed(101, true),
            Step::Until(101, 125),
            Step::Line(125, TICK, b"125 tick\n"),
            Step::Line(150, TICK, b"150 tick\n"),
            Step::Line(151, END, b"151 end\n"),
            Step::Line(175, TICK, b"175 tick\n"),
            Step::Line(200, TICK, b"200 tick\n"),
            Step::Line(225, TICK, b"225 tick\n"),
            Step::Over(226),
            Step::Over(1000),
        ],
    );
}

#[test]
fn refusals(rt: HostRuntime) {
    take_steps(
        &rt,
        &mut LiveInput::new(),
        &[
            Step::Line(0, TICK, b"0 tick\n"),
            Step::Typed(1, b"jump\n"),
            Step::Refused(1, b"jump", Reason::Unknown),
            Step::Typed(1, b"tick\n"),
            Step::Refused(1, b"tick", Reason::Unknown),
            Step::Typed(1, b"25 go\n"),
            Step::Refused(1, b"25 go", Reason::Moment),
            Step::Typed(1, b"go 1\n"),
            Step::Refused(1, b"go 1", Reason::Go),
            Step::Typed(1, b"sub 65536 50\n"),
            Step::Refused(1, b"sub 65536 50", Reason::Numbered),
            Step::Typed(1, b"master 101\n"),
            Step::Refused(1, b"master 101", Reason::Master),
            Step::Typed(1, b"goto 0\n"),
            Step::Refused(1, b"goto 0", Reason::Goto),
            Step::Typed(1, b"g\0o\n"),
            Step::Refused(1, b"g?o", Reason::Unknown),
            Step::Typed(1, b"\x1b[2Jgo\xff\n"),
            Step::Refused(1, b"?[2Jgo?", Reason::Unknown),
            Step::Typed(1, b"\n ,\t\r\n! go\ngo\n"),
            Step::Line(1, GO, b"1 go\n"),
            Step::Until(1, 25),
        ],
    );
}

#[test]
fn late_ticks_and_lines_take_turns(rt: HostRuntime) {
    take_steps(
        &rt,
        &mut LiveInput::new(),
        &[
            Step::Line(0, TICK, b"0 tick\n"),
            Step::Typed(1, b"go\nback\ngo\nback\n"),
            Step::Line(40, TICK, b"40 tick\n"),
            Step::Line(70, GO, b"70 go\n"),
            Step::Line(100, TICK, b"100 tick\n"),
            Step::Line(130, BACK, b"130 back\n"),
            Step::Line(131, TICK, b"131 tick\n"),
            Step::Line(132, GO, b"132 go\n"),
            Step::Line(133, BACK, b"133 back\n"),
            Step::Until(134, 154),
        ],
    );
}

#[test]
fn input_ends(rt: HostRuntime) {
    take_steps(
        &rt,
        &mut LiveInput::new(),
        &[
            Step::Line(7, TICK, b"7 tick\n"),
            Step::Typed(8, b"go\nback"),
            Step::Line(8, GO, b"8 go\n"),
            Step::Closed(9, true),
            Step::Line(9, BACK, b"9 back\n"),
            Step::Line(10, DARK, b"10 master 0\n"),
            Step::Until(10, 30),
            Step::Line(30, TICK, b"30 tick\n"),
            Step::Line(53, TICK, b"53 tick\n"),
            Step::Line(76, TICK, b"76 tick\n"),
            Step::Line(100, TICK, b"100 tick\n"),
            Step::Line(100, END, b"100 end\n"),
            Step::Line(125, TICK, b"125 tick\n"),
            Step::Line(150, TICK, b"150 tick\n"),
            Step::Line(175, TICK, b"175 tick\n"),
            Step::Over(175),
        ],
    );
}

#[test]
fn night_is_left(rt: HostRuntime) {
    take_steps(
        &rt,
        &mut LiveInput::new(),
        &[
            Step::Line(0, TICK, b"0 tick\n"),
            Step::Typed(3, b"leave now\nLEAVE ! to the backup\ngo\n"),
            Step::Refused(4, b"leave now", Reason::Alone),
            Step::Line(4, END, b"4 end\n"),
            Step::Refused(5, b"go", Reason::Ending),
            Step::Line(25, TICK, b"25 tick\n"),
            Step::Line(50, TICK, b"50 tick\n"),
            Step::Line(75, TICK, b"75 tick\n"),
            Step::Over(76),
        ],
    );
}

#[test]
fn input_ends_and_light_holds(rt: HostRuntime) {
    take_steps(
        &rt,
        &mut LiveInput::new(),
        &[
            Step::Line(7, TICK, b"7 tick\n"),
            Step::Typed(8, b"go"),
            Step::Closed(9, false),
            Step::Line(9, GO, b"9 go\n"),
            Step::Until(10, 30),
            Step::Line(30, TICK, b"30 tick\n"),
            Step::Until(31, 53),
        ],
    );
}

#[test]
fn questions(rt: HostRuntime) {
    take_steps(
        &rt,
        &mut LiveInput::new(),
        &[
            Step::Line(0, TICK, b"0 tick\n"),
            Step::Typed(3, b"where\n?\nHelp ! please\nwhere now\nend\n"),
            Step::Where(4),
            Step::Help(4),
            Step::Help(5),
            Step::Refused(5, b"where now", Reason::Alone),
            Step::Line(6, DARK, b"6 master 0\n"),
            Step::Typed(7, b"where\nhelp\n"),
            Step::Where(8),
            Step::Help(8),
            Step::Until(9, 25),
        ],
    );
}

#[test]
fn keys_are_left_out(rt: HostRuntime) {
    let mut input = LiveInput::new();
    take_steps(
        &rt,
        &mut input,
        &[
            Step::Line(0, TICK, b"0 tick\n"),
            Step::Typed(3, b"\x1b[A\x1b[Ago\n\x1bOBback\n\x1b[3~\n"),
            Step::Line(4, GO, b"4 go\n"),
        ],
    );
    assert!(rt; input.ignored_keys());
    take_steps(
        &rt,
        &mut input,
        &[
            Step::Line(5, BACK, b"5 back\n"),
            Step::Refused(6, b"?[3~", Reason::Keys),
        ],
    );
    assert!(rt; input.ignored_keys());
    take_steps(
        &rt,
        &mut input,
        &[Step::Typed(7, b"go\n"), Step::Line(8, GO, b"8 go\n")],
    );
    assert!(rt; !input.ignored_keys());
}

#[test]
fn long_lines(rt: HostRuntime) {
    let mut line = [b'x'; 210];
    line[209] = b'\n';
    let mut input = LiveInput::new();
    take_steps(
        &rt,
        &mut input,
        &[Step::Line(0, TICK, b"0 tick\n"), Step::Typed(1, &line)],
    );
    take_steps(
        &rt,
        &mut input,
        &[Step::Refused(1, &[b'x'; 200], Reason::Long)],
    );
}

#[test]
fn reasons(rt: HostRuntime) {
    assert!(rt; Reason::Go.text() == "go takes no number; goto 4 goes to a cue");
    assert!(rt; Reason::Unknown.text() == "no such command; help lists the commands");
}
