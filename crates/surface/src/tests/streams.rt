//! sacn_source: keep_alive, lost_third_send and identity_priority. `sent` is in `sent_count`.

use super::links::TestLink;
use super::rows::{CID, player};
use sacn_packet::SourceName;
use sacn_source::{Identity, Offered, Sender};
use std::process::Abort;
use std::test::Fail;

#[test]
fn identity_priority(rt: HostRuntime) {
    let name = SourceName::new("cueplayer").expect(&rt, "a name");
    assert!(rt; Identity::new(CID, name, 201).is_none());
    assert!(rt; Identity::new(CID, name, 200).is_some());
}

fn frame(level: u8) -> [u8; 512] {
    let mut slots = [0; 512];
    slots[0] = level;
    slots
}

// The moments that decide, and three terminations after it.
#[test]
fn keep_alive(rt: HostRuntime) -> Result<(), Fail> {
    let dark = [0; 512];
    let mut link = TestLink::new(rt.alloc());
    let mut sender = Sender::open(rt.alloc(), player(&rt), &[1])?;
    assert!(rt; sender.offer(0, 1, &dark, &mut link) == Offered::Sent(0));
    assert!(rt; sender.offer(25, 1, &dark, &mut link) == Offered::Sent(1));
    assert!(rt; sender.offer(50, 1, &dark, &mut link) == Offered::Sent(2));
    assert!(rt; sender.offer(75, 1, &dark, &mut link) == Offered::Sent(3));
    assert!(rt; sender.offer(100, 1, &dark, &mut link) == Offered::Quiet);
    assert!(rt; sender.offer(850, 1, &dark, &mut link) == Offered::Quiet);
    assert!(rt; sender.offer(875, 1, &dark, &mut link) == Offered::Sent(4));
    assert!(rt; sender.offer(1650, 1, &dark, &mut link) == Offered::Quiet);
    assert!(rt; sender.offer(1675, 1, &dark, &mut link) == Offered::Sent(5));
    assert!(rt; sender.terminate(1, &mut link) == Offered::Sent(6));
    assert!(rt; sender.terminate(1, &mut link) == Offered::Sent(7));
    assert!(rt; sender.terminate(1, &mut link) == Offered::Sent(8));
    assert!(rt; link.sends.len() == 9);
    assert!(rt; link.packet(5) == Some((1, 5, 0, false)));
    assert!(rt; link.packet(8) == Some((1, 8, 0x40, false)));
    Ok(())
}

fn has_all(link: &TestLink) -> bool {
    link.sends.len() == 4
        && link.packet(0) == Some((1, 0, 0, false))
        && link.packet(1) == Some((1, 1, 0, false))
        && link.packet(2) == Some((1, 2, 0, true))
        && link.packet(3) == Some((1, 3, 0, false))
        && link.slot(3) == Some(200)
}

#[test]
fn lost_third_send(rt: HostRuntime) -> Result<(), Fail> {
    let lit = frame(200);
    let mut link = TestLink::failing(rt.alloc(), 2);
    let mut sender = Sender::open(rt.alloc(), player(&rt), &[1])?;
    assert!(rt; sender.offer(0, 1, &lit, &mut link) == Offered::Sent(0));
    assert!(rt; sender.offer(25, 1, &lit, &mut link) == Offered::Sent(1));
    assert!(rt; sender.offer(50, 1, &lit, &mut link) == Offered::Lost(2));
    assert!(rt; sender.offer(75, 1, &lit, &mut link) == Offered::Sent(3));
    assert!(rt; has_all(&link));
    Ok(())
}

fn offers_one_frame(rt: &impl Abort, sender: &Offered, number: u8) {
    assert!(rt; *sender == Offered::Sent(number));
}

// Sixteen universes, each with a stream of its own.
#[test]
fn sixteen_universes(rt: HostRuntime) -> Result<(), Fail> {
    let mut link = TestLink::new(rt.alloc());
    let universes = [1, 2, 3, 4, 5, 6, 7, 8, 9, 10, 11, 12, 13, 14, 15, 63999];
    let mut sender = Sender::open(rt.alloc(), player(&rt), &universes)?;
    offers_one_frame(&rt, &sender.offer(0, 1, &frame(1), &mut link), 0);
    offers_one_frame(&rt, &sender.offer(0, 63999, &frame(1), &mut link), 0);
    offers_one_frame(&rt, &sender.offer(5, 63999, &frame(2), &mut link), 1);
    Ok(())
}
