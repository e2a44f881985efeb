ghost use Rattle.std.specs.Prelude.{◌≡◌, ◌≤◌, ◌<◌, ◌+◌, ◌^◌, length};
ghost use Rattle.sacn_source.specs.Stands.{lane_universes};
ghost use Rattle.timings.specs.Streams.{TakesFrom};

use crate::ring::Ring;
use crate::timed::Timed;
use anyhow::{Context, Result};
use sacn_packet::SourceName;
use sacn_source::{Identity, Sender};
use std::time::{Clock, Instant};

const UNIVERSES: [u16; 16] = [1, 2, 3, 4, 5, 6, 7, 8, 9, 10, 11, 12, 13, 14, 15, 16];

// Milliseconds between two frames of a universe.
const GAP: u64 = 25;

/// Rounds of another frame each, offered to sixteen universes; the things are packets.
pub fn run<R: AllocGlobal + Clock>(rt: &R, rounds: u32) -> Result<Timed> {
    let name = SourceName::new("timings").context("a name")?;
    let who = Identity::new([7; 16], name, 100).context("a priority")?;
    let mut sender = Sender::open(rt.alloc(), who, &UNIVERSES)?;
    let mut ring = Ring::new(rt.alloc())?;
    let began = Instant::now(rt)?;
    stream(&mut sender, &UNIVERSES, &mut ring, rounds);
    let packets = u64::from(rounds) * UNIVERSES.len() as u64;
    Ok(Timed::since(began, rt, packets, ring.sum_of_slots())?)
}

// Each frame has another slot that is one higher than in the frame before.
fn stream(sender: &mut Sender, universes: &[u16], ring: &mut Ring, rounds: u32)
    requires universes { lane_universes sender.old ≡ universes.now }
    requires few { length universes.now ≤ 25 }
    requires takes { TakesFrom sender.old 0 }
{
    let mut frame = [0u8; 512];
    for round in 0..rounds {
        let place = (round % 512) as usize;
        frame[place] = frame[place].wrapping_add(1);
        offer_all(sender, universes, GAP * u64::from(round), &frame, ring);
    }
}

// Offers each universe the frame, each one a millisecond after the one before.
fn offer_all(
    sender: &mut Sender,
    universes: &[u16],
    moment: u64,
    frame: &[u8; 512],
    ring: &mut Ring,
)
    requires universes { lane_universes sender.old ≡ universes.now }
    requires few { length universes.now ≤ 25 }
    requires takes { TakesFrom sender.old moment }
    requires below { moment + 25 ≤ 2 ^ 48 }
    ensures universes { lane_universes sender.new ≡ universes.now }
    ensures takes { TakesFrom sender.new (moment + 25) }
{
    for i in 0..universes.len() {
        sender.offer(moment + i as u64, universes[i], frame, ring);
    }
}
