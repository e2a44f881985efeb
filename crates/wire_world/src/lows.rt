ghost use Rattle.std.specs.Prelude.{◌≡◌, ◌<◌, ◌≤◌, ℕ, IfOk, length};
ghost use Rattle.wire_world.specs.Wanted.{AreGreatest, AreLows, AreUpTo, IsUpTo, row_of};

use crate::{Happening, Occurrence};
use std::alloc::{AllocError, Global};

// Of each delivery the number of a packet of its universe, before which no later event delivers
// one: such packets need not be kept.
pub(crate) fn lows(alloc: Global, events: &[Happening]) -> Result<Vec<u64>, AllocError>
    ensures each { IfOk result (λ lows. length lows.items ≡ length events.now) }
    ensures lows { IfOk result (λ lows. AreLows events.now lows.items) }
    ensures greatest { IfOk result (λ lows. AreGreatest events.now lows.items) }
{
    let mut lows = vec![in alloc; 0; events.len()]?;
    // Four consoles have at most sixteen universes each, in a row.
    let mut least = [u64::MAX; 64];
    for i in (0..events.len()).rev() {
        if let Occurrence::Deliver {
            console,
            universe,
            k,
            ..
        } = events[i].what
        {
            let row = row_of(console, universe);
            lows[i] = least[row];
            least[row] = least[row].min(k);
        }
    }
    Ok(lows)
}

// The row of a universe of a console in a table of 64.
fn row_of(console: u16, universe: u16) -> usize
    ensures row { result ≡ row_of console universe }
    ensures within { result < 64 }
{
    usize::from(console % 4) * 16 + usize::from(universe % 16)
}

// The greatest number of a packet that an event delivers: those behind it need not be kept.
pub(crate) fn last_wanted(events: &[Happening]) -> u64
    ensures up_to { AreUpTo events.now result }
    ensures least { (last : ℕ) → AreUpTo events.now last → result ≤ last }
{
    let mut last = 0u64;
    for i in 0..events.len() {
        last = last.max(packet_wanted(events[i].what));
    }
    last
}

// The number of the packet that an event delivers, 0 where it delivers none.
fn packet_wanted(what: Occurrence) -> u64
    ensures up_to { IsUpTo result what }
    ensures least { (last : ℕ) → IsUpTo last what → result ≤ last }
{
    match what {
        Occurrence::Deliver { k, .. } => k,
        _ => 0,
    }
}
