//! cmd_rehearse's `rehearse_text`: rehearse_termination, rehearse_basic, window_wrap, silence,
//! setup_faults, skips, window_edge, two_consoles_highest, two_consoles_priority, five_consoles and
//! silent_console.

use super::own_devices::{Failing, TestOutput};
use super::rows::{S1, comment};
use cmd_faults::RunFault;
use cmd_rehearse::rehearse_text;
use fade_core::{PlainFader, StepFader};
use std::alloc::{AllocError, Global};
use std::test::Fail;
use wire_world::Fault;

const NONE: Failing = Failing(None);

fn prints(alloc: Global, show: &[u8], script: &[u8], text: &[u8]) -> bool {
    let mut plain = TestOutput::new(alloc, NONE);
    let mut step = TestOutput::new(alloc, NONE);
    rehearse_text::<PlainFader, TestOutput>(alloc, show, script, &mut plain) == Ok(())
        && plain.has(text)
        && rehearse_text::<StepFader, TestOutput>(alloc, show, script, &mut step) == Ok(())
        && step.has(text)
}

fn refuses(alloc: Global, show: &[u8], script: &[u8], fault: RunFault) -> bool {
    let mut out = TestOutput::new(alloc, NONE);
    rehearse_text::<StepFader, _>(alloc, show, script, &mut out) == Err(fault) && out.has(b"")
}

#[test]
fn rehearse_termination(rt: HostRuntime) {
    let script = b"console 1 100 c0ffee00-0000-4000-8000-00000000e131\nreceiver 1\n0 do 0 go\n\
5000 tick 0\n5025 do 0 end\n5025 tick 0\n5025 deliver 0 0 1 1\n5030 deliver 0 0 1 0\n5030 slots 0\n";
    let text = b"3 ok\n4 live 1:s0\n5 ok\n6 ending 1 1:s1\n7 taken 1 terminated\n\
8 ignored OutOfSequence\n9 slots\nend 0 slots\n";
    assert!(rt; prints(rt.alloc(), S1, script, text));
}

const BASIC: &[u8] = b"console 1 100 c0ffee00-0000-4000-8000-00000000e131\nreceiver 1\n0 do 0 go\n\
1000 tick 0\n1000 deliver 0 0 1 0\n2000 tick 0\n2000 slots 0\n2010 deliver 0 0 1 1\n2010 slots 0\n\
2011 deliver 0 0 1 1\n2022 tick 0\n2030 do 0 go\n2030 do 0 go\n2031 deliver 0 0 1 2\n";

const BASIC_TEXT: &[u8] = b"3 ok\n4 live 1:s0\n5 taken 0\n6 live 1:s1\n7 slots 1:51\n8 taken 1\n\
9 slots 1:102\n10 ignored OutOfSequence\n11 refused TooSoon\n12 ok\n13 refused AtEnd\n\
14 skipped NotSent\nend 0 slots 1:102\n";

#[test]
fn rehearse_basic(rt: HostRuntime) {
    assert!(rt; prints(rt.alloc(), S1, BASIC, BASIC_TEXT));
}

// rehearse_basic with two lines more, which find the source silent.
#[test]
fn silence(rt: HostRuntime) {
    let script = b"console 1 100 c0ffee00-0000-4000-8000-00000000e131\nreceiver 1\n0 do 0 go\n\
1000 tick 0\n1000 deliver 0 0 1 0\n2000 tick 0\n2000 slots 0\n2010 deliver 0 0 1 1\n2010 slots 0\n\
2011 deliver 0 0 1 1\n2022 tick 0\n2030 do 0 go\n2030 do 0 go\n2031 deliver 0 0 1 2\n4509 slots 0\n\
4510 slots 0\n";
    let text = b"3 ok\n4 live 1:s0\n5 taken 0\n6 live 1:s1\n7 slots 1:51\n8 taken 1\n\
9 slots 1:102\n10 ignored OutOfSequence\n11 refused TooSoon\n12 ok\n13 refused AtEnd\n\
14 skipped NotSent\n15 slots 1:102\n16 slots\nend 0 slots\n";
    assert!(rt; prints(rt.alloc(), S1, script, text));
}

#[test]
fn setup_faults(rt: HostRuntime) {
    let alloc = rt.alloc();
    let wide = b"PATCH 1 1<513@FL";
    let setup = |fault| RunFault::Setup(fault);
    assert!(rt; refuses(alloc, S1, b"receiver 1\n", setup(Fault::Consoles)));
    let script = b"console 1 100 c0ffee00-0000-4000-8000-00000000e131\nreceiver 1\nreceiver 1\n";
    assert!(rt; refuses(alloc, S1, script, setup(Fault::Receivers)));
    let script = b"console 63999 100 c0ffee00-0000-4000-8000-00000000e131\nreceiver 1\n";
    assert!(rt; refuses(alloc, wide, script, setup(Fault::Universe)));
    let script = b"console 1 100 c0ffee00-0000-4000-8000-00000000e131\nreceiver 1\n0 do 0 jump\n";
    assert!(rt; refuses(alloc, S1, script, RunFault::Line(3)));
}

#[test]
fn script_too_long(rt: HostRuntime) -> Result<(), Fail> {
    let long = comment(rt.alloc(), 16_777_217)?;
    assert!(rt; refuses(rt.alloc(), S1, long.as_slice(), RunFault::Script));
    let long = comment(rt.alloc(), 16_777_216)?;
    let fault = RunFault::Setup(Fault::Consoles);
    assert!(rt; refuses(rt.alloc(), S1, long.as_slice(), fault));
    Ok(())
}

#[test]
fn skips(rt: HostRuntime) {
    let script = b"console 1 100 c0ffee00-0000-4000-8000-00000000e131\nreceiver 1\n0 do 1 go\n\
0 slots 1\n5 tick 0\n4 tick 0\n281474976710656 tick 0\n";
    let text = b"3 skipped NoConsole\n4 skipped NoReceiver\n5 live 1:s0\n6 skipped Backwards\n\
7 skipped TooLarge\nend 0 slots\n";
    assert!(rt; prints(rt.alloc(), S1, script, text));
}

// A script and what it prints.
#[derive(Drop)]
struct Story {
    script: String,
    text: String,
    line: u32,
}

impl Story {
    fn new(alloc: Global) -> Result<Story, AllocError> {
        let mut script = String::new(alloc);
        script.push_str("console 1 100 c0ffee00-0000-4000-8000-00000000e131\nreceiver 1\n")?;
        Ok(Story {
            script,
            text: String::new(alloc),
            line: 3,
        })
    }

    // An event and its reply.
    fn tell(&mut self, alloc: Global, event: &str, reply: &str) -> Result<(), AllocError> {
        self.script
            .push_str(format!(in alloc; "{event}\n")?.as_str())?;
        self.text
            .push_str(format!(in alloc; "{} {reply}\n", self.line)?.as_str())?;
        self.line = self.line.saturating_add(1);
        Ok(())
    }

    // Submaster 1 moves, and a tick sends.
    fn tick(&mut self, alloc: Global, i: u32) -> Result<(), AllocError> {
        let moment = i.saturating_mul(25);
        let percent = i % 90;
        let number = i % 256;
        self.tell(
            alloc,
            format!(in alloc; "{moment} do 0 sub 1 {percent}")?.as_str(),
            "ok",
        )?;
        let reply = format!(in alloc; "live 1:s{number}")?;
        self.tell(
            alloc,
            format!(in alloc; "{moment} tick 0")?.as_str(),
            reply.as_str(),
        )
    }

    fn deliver(
        &mut self,
        alloc: Global,
        moment: u32,
        k: u32,
        reply: &str,
    ) -> Result<(), AllocError> {
        let event = format!(in alloc; "{moment} deliver 0 0 1 {k}")?;
        self.tell(alloc, event.as_str(), reply)
    }

    // Twenty packets come, the newest first, and then slot 1 is this.
    fn group(
        &mut self,
        alloc: Global,
        newest: u32,
        number: u32,
        slot: u32,
    ) -> Result<(), AllocError> {
        let taken = format!(in alloc; "taken {number}")?;
        self.deliver(alloc, 10_475, newest, taken.as_str())?;
        for behind in 1..20 {
            let k = newest.saturating_sub(behind);
            self.deliver(alloc, 10_475, k, "ignored OutOfSequence")?;
        }
        let slots = format!(in alloc; "slots 1:{slot}")?;
        self.tell(alloc, "10475 slots 0", slots.as_str())
    }

    fn holds(&mut self, alloc: Global, end: &str) -> Result<bool, AllocError> {
        self.text
            .push_str(format!(in alloc; "end 0 {end}\n")?.as_str())?;
        Ok(prints(alloc, S1, self.script.as_bytes(), self.text.as_bytes()))
    }
}

#[test]
fn window_wrap(rt: HostRuntime) -> Result<(), Fail> {
    let alloc = rt.alloc();
    let mut story = Story::new(alloc)?;
    for i in 0..420 {
        story.tick(alloc, i)?;
    }
    story.group(alloc, 19, 19, 24)?;
    story.group(alloc, 219, 219, 50)?;
    story.group(alloc, 419, 163, 75)?;
    assert!(rt; story.holds(alloc, "slots 1:75")?);
    Ok(())
}

// The window's edge: the last packet is within it, or one outside.
fn last_packet_is(alloc: Global, last: u32, reply: &str, slots: &str) -> Result<bool, AllocError> {
    let mut story = Story::new(alloc)?;
    for i in 0..=237 {
        story.tick(alloc, i)?;
    }
    story.deliver(alloc, 5925, 19, "taken 19")?;
    story.deliver(alloc, 8425, 0, "taken 0")?;
    story.deliver(alloc, 8425, last, reply)?;
    story.tell(alloc, "8425 slots 0", slots)?;
    story.holds(alloc, slots)
}

#[test]
fn window_edge(rt: HostRuntime) -> Result<(), Fail> {
    assert!(rt; last_packet_is(rt.alloc(), 236, "taken 236", "slots 1:72")?);
    assert!(rt; last_packet_is(rt.alloc(), 237, "ignored OutOfSequence", "slots")?);
    Ok(())
}

#[test]
fn two_consoles_highest(rt: HostRuntime) {
    let script = b"console 1 100 c0ffee00-0000-4000-8000-00000000e131\n\
console 1 100 c0ffee00-0000-4000-8000-00000000e132\nreceiver 1\n0 do 0 sub 1 FL\n0 do 1 sub 1 50\n\
0 tick 0\n0 tick 1\n0 deliver 0 0 1 0\n0 deliver 0 1 1 0\n0 slots 0\n25 do 0 end\n25 tick 0\n\
25 deliver 0 0 1 1\n25 slots 0\n";
    let text =
        b"4 ok\n5 ok\n6 live 1:s0\n7 live 1:s0\n8 taken 0\n9 taken 0\n10 slots 1:128\n11 ok\n\
12 ending 1 1:s1\n13 taken 1 terminated\n14 slots 1:64\nend 0 slots 1:64\n";
    assert!(rt; prints(rt.alloc(), S1, script, text));
}

#[test]
fn two_consoles_priority(rt: HostRuntime) {
    let script = b"console 1 100 c0ffee00-0000-4000-8000-00000000e131\n\
console 1 150 c0ffee00-0000-4000-8000-00000000e132\nreceiver 1\n0 do 0 sub 1 FL\n0 do 1 sub 1 50\n\
0 tick 0\n0 tick 1\n0 deliver 0 0 1 0\n0 deliver 0 1 1 0\n0 slots 0\n25 do 0 end\n25 tick 0\n\
25 deliver 0 0 1 1\n25 slots 0\n";
    let text = b"4 ok\n5 ok\n6 live 1:s0\n7 live 1:s0\n8 taken 0\n9 taken 0\n10 slots 1:64\n11 ok\n\
12 ending 1 1:s1\n13 taken 1 terminated\n14 slots 1:64\nend 0 slots 1:64\n";
    assert!(rt; prints(rt.alloc(), S1, script, text));
}

#[test]
fn five_consoles(rt: HostRuntime) {
    let script = b"console 1 100 c0ffee00-0000-4000-8000-00000000e131\n\
console 1 100 c0ffee00-0000-4000-8000-00000000e132\n\
console 1 100 c0ffee00-0000-4000-8000-00000000e133\n\
console 1 100 c0ffee00-0000-4000-8000-00000000e134\n\
console 1 100 c0ffee00-0000-4000-8000-00000000e135\nreceiver 1\n";
    assert!(rt; refuses(rt.alloc(), S1, script, RunFault::Setup(Fault::Consoles)));
}

// A console falls silent.
#[test]
fn silent_console(rt: HostRuntime) {
    let script = b"console 1 100 c0ffee00-0000-4000-8000-00000000e131\n\
console 1 150 c0ffee00-0000-4000-8000-00000000e132\nreceiver 1\n0 do 0 sub 1 FL\n0 do 1 sub 1 50\n\
0 tick 0\n0 tick 1\n0 deliver 0 0 1 0\n0 deliver 0 1 1 0\n0 slots 0\n2400 tick 0\n\
2400 deliver 0 0 1 1\n2499 slots 0\n2500 slots 0\n";
    let text = b"4 ok\n5 ok\n6 live 1:s0\n7 live 1:s0\n8 taken 0\n9 taken 0\n10 slots 1:64\n\
11 live 1:s1\n12 taken 1\n13 slots 1:64\n14 slots 1:128\nend 0 slots 1:128\n";
    assert!(rt; prints(rt.alloc(), S1, script, text));
}

#[test]
fn writes_fail(rt: HostRuntime) {
    for (write, length) in [(0u32, 0), (1, 5), (2, 17)] {
        let mut out = TestOutput::new(rt.alloc(), Failing(Some(write)));
        let answer = rehearse_text::<StepFader, _>(rt.alloc(), S1, BASIC, &mut out);
        assert!(rt; answer == Err(RunFault::Device));
        assert!(rt; BASIC_TEXT.starts_with(out.text.as_slice()), "{length}");
    }
}
