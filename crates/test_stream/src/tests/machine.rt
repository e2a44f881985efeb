use devices::LinkFault;
use live_machine::memory::{MemoryClock, MemoryInput};
use live_machine::{Came, InputEnd, NightClock, NightInput, clock_law, reason};
use std::io::ErrorKind;
use std::time::Duration;

#[test]
fn moments_follow_the_clock(rt: HostRuntime) {
    let clock = MemoryClock::new(rt.alloc(), Duration::from_micros(21_500), 3, 1);
    let mut clock = NightClock::new(clock, 1000);
    assert!(rt; clock.moment() == Ok(1000));
    assert!(rt; clock.moment() == Ok(1021));
    assert!(rt; clock.moment() == Ok(1043));
    assert!(rt; clock.moment() == Err(LinkFault));
    assert!(rt; clock.moment() == Ok(1064));
    assert!(rt; !clock.clock.full && clock.clock.readings.len() == 4);
    clock_law(1000, Duration::ZERO, Duration::from_micros(21_500));
}

#[test]
fn waits_end_at_what_is_due(rt: HostRuntime) {
    let input = MemoryInput::new(rt.alloc(), b"go\nend\n", 3, 1, 1);
    let mut input = NightInput::new(input, true);
    let mut block = [0; 4096];
    assert!(rt; input.held.try_extend_from_slice(b"back\n").is_ok());
    assert!(rt; input.hear(0, 25, &mut block) == Ok(Came::Bytes(5)));
    assert!(rt; &block[..5] == b"back\n".as_slice());
    assert!(rt; input.hear(0, 25, &mut block) == Ok(Came::Bytes(3)));
    assert!(rt; &block[..3] == b"go\n".as_slice());
    assert!(rt; input.hear(7, 25, &mut block) == Err(LinkFault));
    assert!(rt; input.hear(0, 800, &mut block) == Ok(Came::Bytes(3)));
    assert!(rt; input.hear(30, 25, &mut block) == Ok(Came::Bytes(1)));
    assert!(rt; input.hear(0, 25, &mut block) == Ok(Came::End));
    let most = [25, 18, 500, 0, 25];
    let waits = input.input.waits.as_slice();
    assert!(rt; !input.input.full && waits.len() == most.len());
    assert!(rt;
        waits
            .iter()
            .zip(most.iter())
            .all(|(wait, most)| wait.most == *most)
    );
}

#[test]
fn an_end_of_the_input_is_told_once(rt: HostRuntime) {
    let mut end = InputEnd::new();
    end.come(1000, false);
    assert!(rt; !end.is_told(1249) && end.is_told(1250) && !end.is_told(1250));
    end.come(2000, false);
    end.pass_line(b"2100 end\n");
    assert!(rt; !end.is_told(2250));
    end.come(3000, true);
    assert!(rt; !end.is_told(3250));
}

#[test]
fn failures_have_words(rt: HostRuntime) {
    assert!(rt; reason(ErrorKind::StorageFull) == "the disk is full");
    assert!(rt; reason(ErrorKind::Uncategorized) == "the system refused");
}
