use crate::screen::Screen;
use link_notices::{LinkNotices, LinkWatch, NetworkLook, look_time};
use live_machine::MachineClock;
use night_lines::{NoticeNetwork, night_sources, notice_line};
use std::cell::RefCell;
use std::time::Instant;
use system_devices::{Network, SystemClock};

/// Watches the cards, addresses and routes of a night, and tells what changes: so that an operator
/// knows when nodes get nothing. A look takes microseconds, and waits for nothing.
#[derive(Drop)]
pub struct LinkTeller<'a> {
    network: &'a RefCell<Network>,
    clock: SystemClock<'a>,
    watch: LinkWatch,
}

impl<'a> LinkTeller<'a> {
    /// To which hosts there is no route was told at the start.
    pub fn new(rt: &'a HostRuntime, network: &'a RefCell<Network>) -> LinkTeller<'a> {
        let start = match network.try_borrow() {
            Ok(network) => network.latest_look(),
            Err(_) => NetworkLook::default(),
        };
        LinkTeller {
            network,
            clock: SystemClock::new(rt, Instant::now(rt).ok()),
            watch: LinkWatch::new(start),
        }
    }

    /// Looks, where it is time to, and tells at this moment of the night what changed. Where the
    /// clock cannot be read, there is no look.
    pub fn look(&mut self, rt: &HostRuntime, moment: u64, screen: &mut Screen) {
        if let Ok(passed) = self.clock.time_passed()
            && let Some(now) = look_time(passed)
            && let Some(due) = self.watch.due_look(now)
            && let Ok(mut network) = self.network.try_borrow_mut()
        {
            let notices = self.watch.take_look(due, network.look(rt));
            tell(rt, moment, &notices, &network, screen);
        }
    }

    /// Tells again what is wrong.
    pub fn tell_again(&self, rt: &HostRuntime, moment: u64, screen: &mut Screen) {
        if let Ok(network) = self.network.try_borrow() {
            tell(rt, moment, &self.watch.again(), &network, screen);
        }
    }
}

fn tell(
    rt: &HostRuntime,
    moment: u64,
    notices: &LinkNotices,
    network: &Network,
    screen: &mut Screen,
) {
    let sources = night_sources(network.sources());
    let told = NoticeNetwork {
        sources: sources.as_slice(),
        paths: network.paths(),
    };
    for notice in notices.as_slice() {
        let route = network.first_route(rt, notice);
        if let Some(line) = notice_line(moment, notice, route, &told) {
            screen.tell(line.as_str().as_bytes());
        }
    }
}
