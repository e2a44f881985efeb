ghost use Rattle.std.specs.Prelude.{◌≡◌, ◌==◌, ◌&&◌, not, length, if◌then◌else◌};
ghost use Rattle.std.specs.List.{list_any};
ghost use Rattle.cmd_listen.specs.Ignored.{with_one_more, stray_place};
ghost use Rattle.cmd_listen.specs.Watching as spec;

use crate::ignored::{BACKWARDS, Counts, NONE, count, stray_place, tell_counts};
use crate::instant::Instant;
use crate::monitor::Monitor;
use crate::monitors::{is_watched, take_all, watch_all};
use sacn_packet::laws::front;
use sacn_packet::parse;
use std::alloc::{AllocError, Global};

/// The universes that are watched.
#[derive(Debug, Drop)]
pub struct Watching {
    /// That of the last line, in milliseconds.
    pub moment: u64,
    /// What no universe was handed, and what was not told of yet.
    pub strays: Counts,
    pub monitors: Vec<Monitor>,
}

impl Watching {
    ghost use Rattle.std.specs.Prelude.{◌≡◌, ◌≤◌, ℕ, ◌++◌, OnOk, IfOk, All, length};
    ghost use Rattle.cmd_listen.specs.Watching as spec;
    ghost use Rattle.cmd_listen.specs.Watching.{WatchState};
    ghost use Rattle.cmd_listen.specs.Stands.{MonitorsStand};

    // The universes before any line.
    pub fn new(alloc: Global, universes: &[u16]) -> Result<Watching, AllocError>
        requires { All (λ u. (1 ≤ u) × (u ≤ 63999)) universes.now }
        ensures { IfOk result (λ watching. MonitorsStand watching (spec.new_watch universes.now)) }
    {
        let monitors = watch_all(alloc, universes)?;
        Ok(Watching {
            moment: 0,
            strays: NONE,
            monitors,
        })
    }

    // Takes a line with this moment, and a datagram where it is not empty.
    pub fn take(
        &mut self,
        moment: u64,
        datagram: &[u8],
        text: &mut Vec<u8>,
    ) -> Result<(), AllocError>
        ensures { OnOk result ((w : WatchState) → MonitorsStand self.old w
            → MonitorsStand self.new (spec.after_arrival moment datagram.now w)
            × (text.new.items ≡ text.old.items ++ spec.arrived_text moment datagram.now w)) }
    {
        if moment < self.moment {
            count(&mut self.strays, BACKWARDS);
            return Ok(());
        }
        let instant = instant(self.moment, moment, datagram);
        self.pass(instant, datagram, text)
    }

    // Takes the end of the lines: all is told.
    pub fn close(&mut self, text: &mut Vec<u8>) -> Result<(), AllocError>
        ensures { OnOk result ((w : WatchState) → MonitorsStand self.old w
            → text.new.items ≡ text.old.items ++ spec.last_text w) }
    {
        let instant = Instant {
            moment: self.moment,
            to: 0,
            tells: true,
            looks: true,
        };
        self.pass(instant, &[], text)
    }

    fn pass(
        &mut self,
        instant: Instant,
        datagram: &[u8],
        text: &mut Vec<u8>,
    ) -> Result<(), AllocError>
        ensures { OnOk result
            ((w : WatchState) → MonitorsStand self.old w → w.moment ≤ instant.moment
            → MonitorsStand self.new (spec.after_instant instant datagram.now w)
            × (text.new.items ≡ text.old.items ++ spec.passed_text instant datagram.now w)) }
    {
        tell_counts(text, instant, 0, &mut self.strays)?;
        count_stray(
            &mut self.strays,
            self.monitors.as_slice(),
            instant.to,
            datagram,
        );
        take_all(self.monitors.as_mut_slice(), instant, datagram, text)?;
        self.moment = instant.moment;
        Ok(())
    }
}

// Counts a datagram that is for none of the universes.
fn count_stray(strays: &mut Counts, monitors: &[Monitor], to: u16, datagram: &[u8])
    ensures { strays.new ≡ (if not (length datagram.now == 0)
        && not (list_any (λ m. to == m.universe) monitors.now)
        then with_one_more (stray_place datagram.now) strays.old else strays.old) }
{
    if datagram.is_empty() || is_watched(monitors, to) {
        return;
    }
    count(strays, stray_place(datagram));
}

// A line at a moment, after one before.
fn instant(before: u64, moment: u64, datagram: &[u8]) -> Instant
    ensures { result ≡ spec.instant before moment datagram.now }
{
    Instant {
        moment,
        to: universe_in(datagram),
        tells: before / 1000 != moment / 1000,
        looks: before / 100 != moment / 100,
    }
}

// The universe of the data packet in a datagram, and 0 where there is none.
fn universe_in(datagram: &[u8]) -> u16
    ensures { result ≡ spec.universe_in datagram.now }
{
    front();
    match parse(datagram) {
        Ok(packet) => packet.universe(),
        Err(_) => 0,
    }
}
