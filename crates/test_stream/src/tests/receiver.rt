use sacn_packet::{Header, SourceName, Unreadable, encode};
use sacn_receiver::{Ignored, Receiver, Taken, laws};
use std::process::Abort;

// A packet of universe 1, at priority 100, with a level at its first slot.
#[derive(Clone, Copy)]
struct Sent {
    source: u8,
    sequence: u8,
    options: u8,
    level: u8,
}

fn bytes_of(sent: Sent) -> [u8; 638] {
    let mut cid = [0; 16];
    cid[15] = sent.source;
    let header = Header {
        cid,
        name: SourceName::new("cueplayer").unwrap(),
        priority: 100,
        sequence: sent.sequence,
        options: sent.options,
        universe: 1,
    };
    let mut slots = [0; 512];
    slots[0] = sent.level;
    let mut packet = [0; 638];
    encode(&header, &slots, &mut packet);
    packet
}

// The first slot and the number of live sources, where all other slots are 0.
fn first_slot(receiver: &Receiver, moment: u64) -> Option<(u8, usize)> {
    if receiver.now() > moment {
        return None;
    }
    let mut slots = [0xff; 512];
    receiver.slots(moment, &mut slots);
    let (first, others) = slots.split_first()?;
    let are_dark = others.iter().all(|level| *level == 0);
    are_dark.then_some((*first, receiver.live(moment)))
}

// A packet of a source with its answer, the number where it is taken, or what is seen after those
// so far.
enum Step {
    // Moment, source, sequence number and level.
    Live(u64, u8, u8, u8, Result<u8, Ignored>),
    // The same with the termination bit.
    Ended(u64, u8, u8, u8, Result<u8, Ignored>),
    // Moment, first slot and live sources; all other slots are 0.
    Shown(u64, u8, usize),
    Now(u64),
}

fn take(receiver: &mut Receiver, moment: u64, sent: Sent) -> Result<Taken, Ignored> {
    receiver.take(moment, &bytes_of(sent))
}

fn holds(receiver: &mut Receiver, step: &Step) -> bool {
    match step {
        Step::Live(moment, source, sequence, level, answer) => {
            let sent = Sent {
                source: *source,
                sequence: *sequence,
                options: 0,
                level: *level,
            };
            let wanted = answer.map(|sequence| Taken {
                sequence,
                terminated: false,
            });
            take(receiver, *moment, sent) == wanted
        }
        Step::Ended(moment, source, sequence, level, answer) => {
            let sent = Sent {
                source: *source,
                sequence: *sequence,
                options: 0x40,
                level: *level,
            };
            let wanted = answer.map(|sequence| Taken {
                sequence,
                terminated: true,
            });
            take(receiver, *moment, sent) == wanted
        }
        Step::Shown(moment, level, live) => first_slot(receiver, *moment) == Some((*level, *live)),
        Step::Now(moment) => receiver.now() == *moment,
    }
}

// A new receiver of universe 1 takes the steps.
fn take_steps(rt: &impl Abort, steps: &[Step]) {
    let mut receiver = Receiver::new(1);
    for (place, step) in steps.iter().enumerate() {
        assert!(rt; holds(&mut receiver, step), "step {place}");
    }
}

#[test]
fn wrap_order(rt: HostRuntime) {
    take_steps(
        &rt,
        &[
            Step::Live(0, 1, 255, 0, Ok(255)),
            Step::Live(10, 1, 254, 0, Err(Ignored::OutOfSequence)),
            Step::Live(20, 1, 1, 0, Ok(1)),
            Step::Live(30, 1, 0, 0, Err(Ignored::OutOfSequence)),
        ],
    );
}

// Each source is heard for itself.
#[test]
fn sequence_edges(rt: HostRuntime) {
    take_steps(
        &rt,
        &[
            Step::Live(0, 1, 100, 0, Ok(100)),
            Step::Live(0, 1, 81, 0, Err(Ignored::OutOfSequence)),
            Step::Live(0, 1, 80, 0, Ok(80)),
            Step::Live(0, 2, 0, 0, Ok(0)),
            Step::Live(0, 2, 237, 0, Err(Ignored::OutOfSequence)),
            Step::Live(0, 2, 236, 0, Ok(236)),
        ],
    );
}

#[test]
fn source_loss(rt: HostRuntime) {
    take_steps(
        &rt,
        &[
            Step::Shown(0, 0, 0),
            Step::Live(1000, 1, 10, 7, Ok(10)),
            Step::Shown(3499, 7, 1),
            Step::Shown(3500, 0, 0),
            Step::Live(3500, 1, 9, 7, Ok(9)),
        ],
    );
}

#[test]
fn four_sources(rt: HostRuntime) {
    take_steps(
        &rt,
        &[
            Step::Ended(0, 1, 0, 99, Ok(0)),
            Step::Live(1, 2, 0, 1, Ok(0)),
            Step::Live(2, 3, 0, 1, Ok(0)),
            Step::Live(3, 4, 0, 1, Ok(0)),
            Step::Live(2499, 5, 0, 1, Err(Ignored::SourcesFull)),
            Step::Live(2500, 5, 0, 1, Ok(0)),
        ],
    );
}

#[test]
fn stranger_termination(rt: HostRuntime) {
    take_steps(
        &rt,
        &[
            Step::Ended(5025, 1, 1, 99, Ok(1)),
            Step::Live(5030, 1, 0, 9, Err(Ignored::OutOfSequence)),
            Step::Shown(5030, 0, 0),
            Step::Live(5040, 1, 2, 9, Ok(2)),
            Step::Shown(5040, 9, 1),
        ],
    );
}

#[test]
fn receiver_backwards(rt: HostRuntime) {
    take_steps(
        &rt,
        &[
            Step::Now(0),
            Step::Live(1000, 1, 0, 9, Ok(0)),
            Step::Live(999, 1, 1, 9, Err(Ignored::Backwards)),
            Step::Now(1000),
        ],
    );
}

// The packet with number 2 was lost on the way.
#[test]
fn lost_third_send(rt: HostRuntime) {
    take_steps(
        &rt,
        &[
            Step::Live(0, 1, 0, 200, Ok(0)),
            Step::Live(25, 1, 1, 200, Ok(1)),
            Step::Live(75, 1, 3, 200, Ok(3)),
            Step::Shown(75, 200, 1),
        ],
    );
}

// The answer of a receiver of universe 1 to a packet with these options, universe, START code and
// priority.
fn answer_to(options: u8, universe: u8, start: u8, priority: u8) -> Result<Taken, Ignored> {
    let mut packet = bytes_of(Sent {
        source: 1,
        sequence: 3,
        options,
        level: 9,
    });
    packet[108] = priority;
    packet[114] = universe;
    packet[125] = start;
    Receiver::new(1).take(0, &packet)
}

#[test]
fn ignored_kinds(rt: HostRuntime) {
    for (options, universe, start, priority, reason) in &[
        (0, 1, 0, 100, None),
        (0x80, 1, 0, 100, Some(Ignored::Preview)),
        (0, 1, 0xdd, 100, Some(Ignored::AltStart)),
        (0x40, 1, 0xdd, 100, None),
        (0, 2, 0, 100, Some(Ignored::OtherUniverse)),
        (
            0,
            1,
            0,
            201,
            Some(Ignored::Unreadable(Unreadable::Priority)),
        ),
        (0xc0, 1, 0, 100, Some(Ignored::Preview)),
        (0xc0, 2, 0, 100, Some(Ignored::OtherUniverse)),
    ] {
        let answer = answer_to(*options, *universe, *start, *priority);
        assert!(rt;
            answer.err() == *reason,
            "{options} {universe} {start} {priority}"
        );
    }
}

#[test]
fn every_law() {
    laws::heard_are_accepted();
    laws::sources_are_independent();
    laws::records_are_independent();
    laws::answers_are_independent();
    laws::live_are_records();
    laws::merge_is_by_membership();
}
