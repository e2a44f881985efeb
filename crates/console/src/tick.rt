ghost use Rattle.std.specs.Prelude.{◌≡◌, ◌≢◌, ℕ, List, ◌∷◌, Contains};
ghost use Rattle.desk_core.specs.Meaning.{universe_numbers};
ghost use Rattle.desk_core.specs.Played.{Act, tick_at};
ghost use Rattle.sacn_source.specs.Offering.{Offers as OffersOne};
ghost use Rattle.sacn_source.specs.Stands.{lane_of, lane_universes};
ghost use Rattle.console.specs.Offering.{OffersDues as OffersTo};
ghost use Rattle.console.specs.Stands.{HasStream, HasStreams, IsMidTick};
ghost use Rattle.console.specs.Streams.{Due, Production, due_at, dues_at};

use crate::offers::Offers;
use desk_core::{Desk, Ticked};
use fade_core::Fader;
use sacn_source::{Link, Offered, Sender};

// An accepted tick, and what the desk answered to it.
#[derive(Clone, Copy, Debug)]
struct Tick {
    moment: u64,
    answer: Ticked,
}

// Offers each universe what is due on it, at a tick that the desk answered so.
pub fn offer_all<F: Fader, L: Link>(
    desk: &Desk<F>,
    sender: &mut Sender,
    moment: u64,
    answer: Ticked,
    link: &mut L,
) -> Offers
    requires real { (production : Production) × (older : List Act)
        × IsMidTick F.stands_for production desk.now older moment answer
        × HasStreams production sender.old older }
    ensures stands { (production : Production) (older : List Act)
        → IsMidTick F.stands_for production desk.now older moment answer
        → HasStreams production sender.old older
        → HasStreams production sender.new (tick_at moment ∷ older) }
    ensures told { L.tells link.new → L.tells link.old }
    ensures offered { (production : Production) (older : List Act)
        → IsMidTick F.stands_for production desk.now older moment answer
        → HasStreams production sender.old older
        → L.tells link.new → OffersTo production.source (dues_at production older moment) result
        (L.offered link.old) (L.offered link.new) }
{
    let universes = desk.universes();
    let mut offers = Offers::new();
    for universe in universes.as_slice() {
        let tick = Tick { moment, answer };
        let offered = offer(desk, sender, tick, *universe, link);
        offers.push(*universe, offered);
    }
    offers
}

// Offers a universe its frame, or ends its stream.
fn offer<F: Fader, L: Link>(
    desk: &Desk<F>,
    sender: &mut Sender,
    tick: Tick,
    universe: u16,
    link: &mut L,
) -> Offered
    requires patched { Contains (universe_numbers desk.now.show.patch desk.now.base) universe }
    requires here { Contains (lane_universes sender.old) universe }
    requires real { (production : Production) × (older : List Act)
        × IsMidTick F.stands_for production desk.now older tick.moment tick.answer
        × HasStream production sender.old older universe }
    ensures universes { lane_universes sender.new ≡ lane_universes sender.old }
    ensures others { (other : ℕ) → other ≢ universe
        → lane_of sender.new other ≡ lane_of sender.old other }
    ensures stands { (production : Production) (older : List Act)
        → IsMidTick F.stands_for production desk.now older tick.moment tick.answer
        → HasStream production sender.old older universe
        → HasStream production sender.new (tick_at tick.moment ∷ older) universe }
    ensures told { L.tells link.new → L.tells link.old }
    ensures offered { (production : Production) (older : List Act)
        → IsMidTick F.stands_for production desk.now older tick.moment tick.answer
        → HasStream production sender.old older universe → L.tells link.new
        → let due : Due = due_at production older tick.moment universe in
        OffersOne production.source universe due.place due.packet result
        (L.offered link.old) (L.offered link.new) }
{
    match tick.answer {
        Ticked::Live => sender.offer(tick.moment, universe, desk.slots(universe), link),
        Ticked::Ending(_) => sender.terminate(universe, link),
    }
}
