//! sacn_receiver: wrap_order, sequence_edges, source_loss, lost_third_send's half of it,
//! stranger_termination, ignored_kinds, receiver_backwards and four_sources.

use super::rows::CID;
use sacn_packet::{Header, SourceName, Unreadable, encode};
use sacn_receiver::{Ignored, Receiver, Taken};
use std::process::Abort;

// A packet of universe 1 by its last byte of the CID, number, options and slot 1.
#[derive(Clone, Copy)]
struct Sent {
    source: u8,
    sequence: u8,
    options: u8,
    level: u8,
}

const fn of(source: u8, sequence: u8, options: u8, level: u8) -> Sent {
    Sent {
        source,
        sequence,
        options,
        level,
    }
}

fn bytes_of(rt: &impl Abort, sent: Sent) -> [u8; 638] {
    let mut cid = CID;
    cid[15] = sent.source;
    let header = Header {
        cid,
        name: SourceName::new("cueplayer").expect(rt, "a name"),
        priority: 100,
        sequence: sent.sequence,
        options: sent.options,
        universe: 1,
    };
    let mut slots = [0; 512];
    slots[0] = sent.level;
    let mut packet = [0; 638];
    encode(&header, &slots, &mut packet);
    packet
}

// Slot 1 and the number of live sources, where all other slots are 0.
fn seen(receiver: &Receiver, moment: u64) -> Option<(u8, usize)> {
    if moment < receiver.now() {
        return None;
    }
    let mut slots = [9; 512];
    receiver.slots(moment, &mut slots);
    if slots[1..] != [0; 511] {
        return None;
    }
    let live: usize = receiver.live(moment);
    Some((slots[0], live))
}

#[derive(Drop)]
enum Step {
    // At this moment this packet, and its number where it is taken.
    Live(u64, Sent, Result<u8, Ignored>),
    // The same of a termination.
    Ended(u64, Sent, Result<u8, Ignored>),
    // At this moment slot 1 and the number of live sources.
    Seen(u64, u8, usize),
    Now(u64),
}

use Step::{Ended, Live, Now, Seen};

fn is_answer(
    answer: Result<Taken, Ignored>,
    wanted: Result<u8, Ignored>,
    is_termination: bool,
) -> bool {
    match (answer, wanted) {
        (
            Ok(
                Taken {
                    sequence,
                    terminated,
                },
            ),
            Ok(number),
        ) => sequence == number && terminated == is_termination,
        (Err(found), Err(reason)) => found == reason,
        _ => false,
    }
}

fn holds(rt: &impl Abort, receiver: &mut Receiver, step: &Step) -> bool {
    match step {
        Live(moment, sent, wanted) => {
            is_answer(receiver.take(*moment, &bytes_of(rt, *sent)), *wanted, false)
        }
        Ended(moment, sent, wanted) => {
            is_answer(receiver.take(*moment, &bytes_of(rt, *sent)), *wanted, true)
        }
        Seen(moment, level, live) => seen(receiver, *moment) == Some((*level, *live)),
        Now(moment) => receiver.now() == *moment,
    }
}

// A new receiver of universe 1 takes the steps.
fn take_steps(rt: &impl Abort, steps: &[Step]) {
    let mut receiver = Receiver::new(1);
    for (place, step) in steps.iter().enumerate() {
        assert!(rt; holds(rt, &mut receiver, step), "step {place}");
    }
}

#[test]
fn wrap_order(rt: HostRuntime) {
    take_steps(
        &rt,
        &[
            Live(0, of(1, 255, 0, 0), Ok(255)),
            Live(1, of(1, 254, 0, 0), Err(Ignored::OutOfSequence)),
            Live(2, of(1, 1, 0, 0), Ok(1)),
            Live(2499, of(1, 0, 0, 0), Err(Ignored::OutOfSequence)),
        ],
    );
}

#[test]
fn sequence_edges(rt: HostRuntime) {
    take_steps(
        &rt,
        &[
            Live(0, of(1, 100, 0, 0), Ok(100)),
            Live(0, of(1, 81, 0, 0), Err(Ignored::OutOfSequence)),
            Live(0, of(1, 80, 0, 0), Ok(80)),
        ],
    );
    take_steps(
        &rt,
        &[
            Live(0, of(1, 0, 0, 0), Ok(0)),
            Live(0, of(1, 237, 0, 0), Err(Ignored::OutOfSequence)),
            Live(0, of(1, 236, 0, 0), Ok(236)),
        ],
    );
}

#[test]
fn source_loss(rt: HostRuntime) {
    take_steps(
        &rt,
        &[
            Live(1000, of(1, 10, 0, 77), Ok(10)),
            Seen(3499, 77, 1),
            Seen(3500, 0, 0),
            Live(3500, of(1, 9, 0, 0), Ok(9)),
        ],
    );
}

#[test]
fn lost_third_send(rt: HostRuntime) {
    take_steps(
        &rt,
        &[
            Live(0, of(1, 0, 0, 200), Ok(0)),
            Live(25, of(1, 1, 0, 200), Ok(1)),
            Live(75, of(1, 3, 0, 200), Ok(3)),
            Seen(75, 200, 1),
        ],
    );
}

#[test]
fn stranger_termination(rt: HostRuntime) {
    take_steps(
        &rt,
        &[
            Ended(5025, of(1, 1, 0x40, 50), Ok(1)),
            Live(5030, of(1, 0, 0, 255), Err(Ignored::OutOfSequence)),
            Seen(5030, 0, 0),
            Live(5040, of(1, 2, 0, 255), Ok(2)),
            Seen(5040, 255, 1),
        ],
    );
}

#[test]
fn ignored_kinds(rt: HostRuntime) {
    let mut receiver = Receiver::new(1);
    let preview = bytes_of(&rt, of(1, 0, 0x80, 1));
    assert!(rt; receiver.take(0, &preview) == Err(Ignored::Preview));
    let mut start = bytes_of(&rt, of(1, 0, 0, 1));
    start[125] = 0xdd;
    assert!(rt; receiver.take(0, &start) == Err(Ignored::AltStart));
    start[112] = 0x40;
    assert!(rt; is_answer(receiver.take(0, &start), Ok(0), true));
    let mut other = bytes_of(&rt, of(1, 1, 0, 1));
    other[114] = 2;
    assert!(rt; receiver.take(0, &other) == Err(Ignored::OtherUniverse));
    let mut loud = bytes_of(&rt, of(1, 1, 0, 1));
    loud[108] = 201;
    let fault = Ignored::Unreadable(Unreadable::Priority);
    assert!(rt; receiver.take(0, &loud) == Err(fault));
}

#[test]
fn receiver_backwards(rt: HostRuntime) {
    take_steps(
        &rt,
        &[
            Now(0),
            Live(1000, of(1, 10, 0, 0), Ok(10)),
            Live(999, of(1, 11, 0, 0), Err(Ignored::Backwards)),
            Now(1000),
        ],
    );
}

#[test]
fn four_sources(rt: HostRuntime) {
    take_steps(
        &rt,
        &[
            Ended(0, of(1, 0, 0x40, 0), Ok(0)),
            Live(1, of(2, 0, 0, 1), Ok(0)),
            Live(2, of(3, 0, 0, 2), Ok(0)),
            Live(3, of(4, 0, 0, 1), Ok(0)),
            Seen(3, 2, 3),
            Live(2499, of(5, 0, 0, 9), Err(Ignored::SourcesFull)),
            Live(2500, of(5, 0, 0, 9), Ok(0)),
        ],
    );
}
