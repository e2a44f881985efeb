use super::are_printed;
use cmd_rehearse::{Script, ScriptFault, read_script};
use std::alloc::Global;
use std::process::Abort;
use std::test::Fail;
use wire_world::{Happening, Occurrence};

// What is read of a text. If an allocation failed, the answer is Memory, and the next reading
// gives what the text says. No text of a test is longer than a script may be.
fn read(alloc: Global, text: &[u8]) -> Result<Script, ScriptFault> {
    if text.len() > 16_777_216 {
        return Err(ScriptFault::Memory);
    }
    match read_script(alloc, text) {
        Err(ScriptFault::Memory) => read_script(alloc, text),
        answer => answer,
    }
}

fn stray(moment: u64, receiver: u16, from: u32, to: u32) -> Happening {
    Happening {
        moment,
        what: Occurrence::Stray { receiver, from, to },
    }
}

// Whether the strays are those of the text below.
fn has_strays(script: &Script) -> bool {
    let events = [stray(7, 3, 0, 4), stray(0, 65535, 4, 4), stray(8, 0, 4, 5)];
    script.events.as_slice() == events.as_slice()
        && script.lines.as_slice() == [3, 4, 5].as_slice()
        && script.strays.as_slice() == [0, 255, 171, 9, 192].as_slice()
}

#[test]
fn strays(rt: HostRuntime) -> Result<(), Fail> {
    let text = b"! two strays\n\n7 STRAY 3 00ffAB09\r\n000 stray 65535\n8,Stray/0 c0 ! one byte";
    let script = read(rt.alloc(), text)?;
    assert!(rt; has_strays(&script));
    Ok(())
}

// Each of the texts is refused for this fault, or read where there is none.
fn read_each(rt: &impl Abort, alloc: Global, fault: Option<ScriptFault>, texts: &[&[u8]]) {
    for text in texts {
        assert!(rt; read(alloc, text).err() == fault, "{text:?}");
    }
}

#[test]
fn forms_at_their_limits(rt: HostRuntime) {
    read_each(
        &rt,
        rt.alloc(),
        None,
        &[
            b"console 63999 0 C0FFEE00-0000-4000-8000-00000000E131".as_slice(),
            b"Console 1 200 c0ffee0000004000800000000000e131",
            b"receiver 63999",
            b"999999999999999 tick 65535",
            b"0 deliver 65535 65535 65535 999999999999999",
            b"0 do 65535 sub 65535 FL",
            b"0 do 0 goto 4.5 in 99:59.99",
            b"0 slots 000000000",
            b"   ! a comment",
        ],
    );
}

#[test]
fn malformed_lines(rt: HostRuntime) {
    read_each(
        &rt,
        rt.alloc(),
        Some(ScriptFault::Line(1)),
        &[
            b"console 0 100 c0ffee00-0000-4000-8000-00000000e131".as_slice(),
            b"console 64000 100 c0ffee00-0000-4000-8000-00000000e131",
            b"console 1 201 c0ffee00-0000-4000-8000-00000000e131",
            b"console 1 100 c0ffee00-0000-4000-8000-00000000e13",
            b"console 1 100",
            b"console 1 100 c0ffee00-0000-4000-8000-00000000e131 x",
            b"receiver 0",
            b"receiver 64000",
            b"receiver",
            b"receiver 1 2",
            b"tick 0",
            b"0",
            b"0 jump",
            b"1000000000000000 tick 0",
            b"0 tick 65536",
            b"0 tick",
            b"0 tick 0 0",
            b"0 do 0",
            b"0 do 0 tick",
            b"0 do 0 go 1",
            b"0 do 0 goto 4.5 in",
            b"0 do go",
            b"0 deliver 0 0 1",
            b"0 deliver 0 0 1 1000000000000000",
            b"0 deliver 0 0 65536 0",
            b"0 deliver 0 0 1 0 0",
            b"0 stray",
            b"0 stray 0 abc",
            b"0 stray 0 0g",
            b"0 stray 0 00 00",
            b"0 slots",
            b"0 slots 0 0",
        ],
    );
}

// A header line stands above all events, and the first malformed line decides.
#[test]
fn first_malformed_line(rt: HostRuntime) {
    read_each(
        &rt,
        rt.alloc(),
        Some(ScriptFault::Line(2)),
        &[
            b"0 tick 0\nreceiver 1".as_slice(),
            b"receiver 1\n0 go\n0 go\n",
        ],
    );
    read_each(
        &rt,
        rt.alloc(),
        Some(ScriptFault::Line(4)),
        &[b"\n0 stray 0\n\nconsole 1 1 c0ffee0000004000800000000000e131\n0".as_slice()],
    );
}

#[test]
fn faults_in_words(rt: HostRuntime) -> Result<(), Fail> {
    let rows = [
        (ScriptFault::Line(3), "line 3 is malformed"),
        (ScriptFault::Memory, "out of memory"),
    ];
    assert!(rt; are_printed(rt.alloc(), &rows)?);
    Ok(())
}
