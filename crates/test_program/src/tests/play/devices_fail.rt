use super::{FADE, FADE_TEXT, PLAIN, Run, Setting, WIDE, holds, play_each};
use cmd_faults::RunFault;
use std::alloc::{AllocError, Global};
use std::test::Fail;

// Seven bytes come by a read: the lines that are whole by then are answered.
#[test]
fn each_read_fails(rt: HostRuntime) {
    for (read, answer, printed, packets) in [
        (0, Err(RunFault::Device), 0, 0),
        (1, Err(RunFault::Device), 5, 0),
        (2, Err(RunFault::Device), 17, 1),
        (3, Err(RunFault::Device), 17, 1),
        (4, Err(RunFault::Device), 32, 2),
        (5, Err(RunFault::Device), 47, 3),
        (6, Err(RunFault::Device), 62, 4),
        (7, Ok(()), 62, 4),
    ] {
        let setting = Setting {
            step: 7,
            read,
            ..PLAIN
        };
        let row = (FADE, answer, &FADE_TEXT[..printed], packets);
        assert!(rt; holds(&rt, rt.alloc(), &setting, &row), "read {read}");
    }
}

// Four lines, each with its LF, and then a failed read.
#[test]
fn four_lines_and_a_failed_read(rt: HostRuntime) {
    let input = b"0 go\n0 tick\n2500 tick\n2525 tick\n";
    let text = b"0 ok\n0 live 1:s0\n2500 live 1:s1\n2525 live 1:s2\n";
    play_each(
        &rt,
        rt.alloc(),
        &Setting { read: 1, ..PLAIN },
        &[(input, Err(RunFault::Device), text, 3)],
    );
}

// The packets of a line are offered before it is printed.
#[test]
fn each_write_fails(rt: HostRuntime) {
    for (write, printed, packets) in [(0, 0, 0), (1, 5, 1), (2, 17, 2), (3, 32, 3), (4, 47, 4)] {
        let setting = Setting { write, ..PLAIN };
        let row = (FADE, Err(RunFault::Device), &FADE_TEXT[..printed], packets);
        assert!(rt; holds(&rt, rt.alloc(), &setting, &row), "write {write}");
    }
}

// Sixty-eight ticks, 25 ms apart.
fn ticks(alloc: Global) -> Result<String, AllocError> {
    let mut input = String::new(alloc);
    for tick in 0u32..68 {
        input.push_str(format!(in alloc; "{} tick\n", tick * 25)?.as_str())?;
    }
    Ok(input)
}

// The number of the packet that a tick sends.
fn number_at(tick: u32) -> Option<u32> {
    match tick {
        0..=3 => Some(tick),
        35 => Some(4),
        67 => Some(5),
        _ => None,
    }
}

// What is printed of a tick where the send of this packet fails.
fn tick_line(alloc: Global, tick: u32, lost: u32) -> Result<String, AllocError> {
    let moment = tick.saturating_mul(25);
    match number_at(tick) {
        None => format!(in alloc; "{moment} live 1:-\n"),
        Some(number) if number == lost => format!(in alloc; "{moment} live 1:x{number}\n"),
        Some(number) => format!(in alloc; "{moment} live 1:s{number}\n"),
    }
}

// What is printed of all of them.
fn tick_lines(alloc: Global, lost: u32) -> Result<String, AllocError> {
    let mut text = String::new(alloc);
    for tick in 0u32..68 {
        text.push_str(tick_line(alloc, tick, lost)?.as_str())?;
    }
    Ok(text)
}

// Six packets were offered, and the send of this one alone failed.
fn loses(run: &Run, lost: u32) -> bool {
    for number in 0u8..6 {
        let is_lost = u32::from(number) == lost;
        if run.packet(usize::from(number)) != Some((1, number, is_lost)) {
            return false;
        }
    }
    true
}

#[test]
fn each_send_fails(rt: HostRuntime) -> Result<(), Fail> {
    let alloc = rt.alloc();
    let input = ticks(alloc)?;
    for lost in 0u32..6 {
        let text = tick_lines(alloc, lost)?;
        let setting = Setting {
            step: 100,
            send: u64::from(lost),
            ..PLAIN
        };
        let run = Run::of(&rt, alloc, &setting, input.as_bytes());
        assert!(rt; run.is(Err(RunFault::Lost(1)), text.as_bytes(), 6) && loses(&run, lost));
    }
    Ok(())
}

fn is_first_lost(run: &Run) -> bool {
    run.packet(0) == Some((1, 0, true)) && run.packet(1) == Some((2, 0, false))
}

// The other universes of a tick are still offered, and a malformed line decides.
#[test]
fn lost_and_malformed(rt: HostRuntime) {
    let setting = Setting {
        show: WIDE,
        send: 0,
        ..PLAIN
    };
    let text = b"0 live 1:x0 2:s0\n";
    play_each(
        &rt,
        rt.alloc(),
        &setting,
        &[
            (b"0 tick\n", Err(RunFault::Lost(1)), text, 2),
            (b"0 tick\njump\n", Err(RunFault::Line(2)), text, 2),
        ],
    );
    assert!(rt; is_first_lost(&Run::of(&rt, rt.alloc(), &setting, b"0 tick\n")));
}
