ghost use Rattle.std.specs.Prelude.{◌≡◌, ◌≤◌, ℕ, List, ◌++◌, OnOk, IfOk, All, map, flat_map};
ghost use Rattle.std.specs.Prelude.{◌==◌};
ghost use Rattle.std.specs.List.{AllZip, list_any};
ghost use Rattle.cmd_listen.specs.Universe.{Knowledge, known_after, new_known, told_text};
ghost use Rattle.cmd_listen.specs.Stands.{MonitorStands};

use crate::instant::Instant;
use crate::monitor::Monitor;
use std::alloc::{AllocError, Global};

// A monitor of each universe.
pub fn watch_all(alloc: Global, universes: &[u16]) -> Result<Vec<Monitor>, AllocError>
    requires { All (λ u. (1 ≤ u) × (u ≤ 63999)) universes.now }
    ensures { IfOk result (λ monitors. AllZip (MonitorStands 0) monitors.items
        (map new_known universes.now)) }
{
    let mut monitors = Vec::new(alloc);
    for universe in universes {
        monitors.push(Monitor::new(*universe))?;
    }
    Ok(monitors)
}

// Whether a universe is watched.
pub fn is_watched(monitors: &[Monitor], universe: u16) -> bool
    ensures { result ≡ list_any (λ m. universe == m.universe) monitors.now }
{
    monitors.iter().any(|monitor| universe == monitor.universe)
}

// Each takes a line.
pub fn take_all(
    monitors: &mut [Monitor],
    instant: Instant,
    datagram: &[u8],
    text: &mut Vec<u8>,
) -> Result<(), AllocError>
    ensures { OnOk result
        ((t : ℕ) (known : List Knowledge) → AllZip (MonitorStands t) monitors.old known
        → t ≤ instant.moment
        → AllZip (MonitorStands instant.moment) monitors.new
        (map (known_after instant datagram.now) known)
        × (text.new.items ≡ text.old.items ++ flat_map (told_text instant datagram.now) known)) }
{
    for i in 0..monitors.len() {
        monitors[i].take(instant, datagram, text)?;
    }
    Ok(())
}
