ghost use Rattle.std.specs.Prelude.{◌≡◌, ◌≢◌, ◌<◌, ◌≤◌, ◌+◌, ◌^◌, ◌∷◌, [], ℕ, suc};
ghost use Rattle.std.specs.Prelude.{List, length, All, Contains, IfOk};
ghost use Rattle.sacn_source.specs.Identity.{Identity as Who};
ghost use Rattle.sacn_source.specs.Offering.{Answers, Offers};
ghost use Rattle.sacn_source.specs.Stands.{StandsFor, earliest_of, ended_of, lane_of};
ghost use Rattle.sacn_source.specs.Stands.{lane_universes};
ghost use Rattle.sacn_source.specs.Stream.{Offer, due_packet, last_packet, packets};

use crate::identity::Identity;
use crate::lane::Lane;
use crate::offered::Offered;
use crate::universes::Universes;
use devices::Link;
use sacn_packet::Slots;
use std::alloc::{AllocError, Global};
use std::marker::Model;

/// The source of some universes: a stream for each.
#[derive(Debug, Drop)]
pub struct Sender {
    // Those of the lanes: beside them, a search for one walks no packets.
    universes: Universes,
    lanes: Vec<Lane>,
}

impl Model for Sender {
    ghost use Rattle.std.specs.Prelude.{◌≡◌, List};
    ghost use Rattle.sacn_source.specs.Kept as kept;

    ghost Value = { List kept.Lane };

    ghost use Rattle.sacn_source.specs.Stands.{lane_universes};

    ghost view = { λ a. a.lanes.items };

    ghost invariant = { λ a. a.universes ≡ lane_universes a.lanes.items };
}

impl Sender {
    /// The source of these universes, which has sent nothing yet. Later calls take no memory.
    ///
    /// Each universe is 1 to 63999; of one that stands there twice, the first alone counts.
    ///
    /// # Errors
    ///
    /// `AllocError` if an allocation failed.
    pub fn open(alloc: Global, who: Identity, universes: &[u16]) -> Result<Sender, AllocError>
        requires range { All (λ universe. (1 ≤ universe) × (universe ≤ 63999)) universes.now }
        ensures universes { IfOk result (λ sender. lane_universes sender ≡ universes.now) }
        ensures stands { IfOk result (λ sender. (universe : ℕ) → Contains universes.now universe →
            StandsFor who sender universe [] 0) }
        ensures earliest { IfOk result (λ sender. (universe : ℕ) → Contains universes.now universe →
            earliest_of sender universe ≡ 0) }
        ensures ended { IfOk result (λ sender. (universe : ℕ) → Contains universes.now universe →
            ended_of sender universe ≡ 0) }
    {
        let mut lanes = Vec::with_capacity(alloc, universes.len())?;
        for universe in universes {
            lanes.push(Lane::new(&who, *universe))?;
        }
        let universes = Universes::new(alloc, universes)?;
        Ok(Sender { universes, lanes })
    }

    /// Offers a universe of the sender's the frame of a moment, in milliseconds, below 2^48 and
    /// later than that of the last offer. It sends a packet where the frame is the first or another
    /// than the one before, three times more after such a change, and where its last packet is
    /// 800 ms ago. A packet that is lost uses its number. After a termination there are no offers.
    #[tactic(auto, using(crate::proofs::SenderLemmas::universes_same))]
    pub fn offer<L: Link>(
        &mut self,
        moment: u64,
        universe: u16,
        slots: &Slots,
        link: &mut L,
    ) -> Offered
        requires here { Contains (lane_universes self.old) universe }
        requires later { earliest_of self.old universe ≤ moment }
        requires below { moment < 2 ^ 48 }
        requires live { ended_of self.old universe ≡ 0 }
        ensures universes { lane_universes self.new ≡ lane_universes self.old }
        ensures stands { (who : Who) (offers : List Offer) →
            StandsFor who self.old universe offers 0 →
            StandsFor who self.new universe
            (record { moment = moment; frame = slots.now } ∷ offers) 0 }
        ensures others { (other : ℕ) → other ≢ universe →
            lane_of self.new other ≡ lane_of self.old other }
        ensures answer { (who : Who) (offers : List Offer) →
            StandsFor who self.old universe offers 0 →
            Answers (length (packets offers 0))
            (due_packet (record { moment = moment; frame = slots.now } ∷ offers)) result }
        ensures told { L.tells link.new → L.tells link.old }
        ensures offered { (who : Who) (offers : List Offer) →
            StandsFor who self.old universe offers 0 → L.tells link.new →
            Offers who universe (length (packets offers 0))
            (due_packet (record { moment = moment; frame = slots.now } ∷ offers))
            result (L.offered link.old) (L.offered link.new) }
        ensures earliest { earliest_of self.new universe ≡ moment + 1 }
        ensures ended { ended_of self.new universe ≡ 0 }
    {
        let place = self.universes.place_of(universe).unwrap();
        self.lanes[place].offer(moment, slots, link)
    }

    /// Sends a universe of the sender's one packet with Stream_Terminated and every slot at 0. At
    /// most three end a stream.
    #[tactic(auto, using(crate::proofs::SenderLemmas::universes_same))]
    pub fn terminate<L: Link>(&mut self, universe: u16, link: &mut L) -> Offered
        requires here { Contains (lane_universes self.old) universe }
        requires fewer { ended_of self.old universe < 3 }
        ensures universes { lane_universes self.new ≡ lane_universes self.old }
        ensures stands { (who : Who) (offers : List Offer) (n : ℕ) →
            StandsFor who self.old universe offers n →
            StandsFor who self.new universe offers (suc n) }
        ensures others { (other : ℕ) → other ≢ universe →
            lane_of self.new other ≡ lane_of self.old other }
        ensures answer { (who : Who) (offers : List Offer) (n : ℕ) →
            StandsFor who self.old universe offers n →
            Answers (length (packets offers n)) (Some last_packet) result }
        ensures told { L.tells link.new → L.tells link.old }
        ensures offered { (who : Who) (offers : List Offer) (n : ℕ) →
            StandsFor who self.old universe offers n → L.tells link.new →
            Offers who universe (length (packets offers n)) (Some last_packet)
            result (L.offered link.old) (L.offered link.new) }
        ensures earliest { earliest_of self.new universe ≡ earliest_of self.old universe }
        ensures ended { ended_of self.new universe ≡ ended_of self.old universe + 1 }
    {
        let place = self.universes.place_of(universe).unwrap();
        self.lanes[place].terminate(link)
    }

    /// How many packets were sent on a universe, terminations and lost ones too; 0 where it is none
    /// of the sender's.
    pub fn sent(&self, universe: u16) -> u64
        ensures sent { (who : Who) (offers : List Offer) (n : ℕ) →
            StandsFor who self.now universe offers n → result ≡ length (packets offers n) }
        ensures other { (Contains (lane_universes self.now) universe → ⊥) → result ≡ 0 }
        ensures below { result < 2 ^ 48 + 4 }
    {
        match self.universes.place_of(universe) {
            Some(place) => self.lanes[place].packets_sent(),
            None => 0,
        }
    }
}
