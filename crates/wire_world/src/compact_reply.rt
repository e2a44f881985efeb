ghost use Rattle.std.specs.Prelude.{◌≡◌, IfOk};
ghost use Rattle.wire_world.specs.declared.reply.Reply.TheVariants.{Ticked as ticked_reply};

use crate::few_offers::{FewOffers, offers_in};
use crate::{Offers, Reply, Skip};
use desk_core::{Refused, Ticked};
use sacn_receiver::{Ignored, Taken};
use show_core::Frame;
use std::alloc::{AllocError, Global};
use std::marker::Model;

/// A reply in little room: most are a number, and what is large lies in a box.
#[derive(Debug, Drop)]
pub struct CompactReply(pub(crate) Kept);

#[derive(Debug, Drop)]
pub(crate) enum Kept {
    Done,
    Refused(Refused),
    // A tick of at most four universes.
    Ticked(Ticked, FewOffers),
    TickedMany(Ticked, Box<Offers>),
    Taken(Taken),
    Ignored(Ignored),
    Shown(Box<Frame>),
    Skipped(Skip),
}

impl Model for CompactReply {
    ghost use Rattle.wire_world.specs.declared.reply.Reply.{Reply};

    ghost Value = { Reply };

    ghost use Rattle.wire_world.specs.Room.{reply_kept};

    ghost view = { λ compact. reply_kept compact.0 };
}

impl CompactReply {
    // A tick, and what became of the frames of its console's universes.
    pub(crate) fn ticked(alloc: Global, ticked: Ticked, offers: Offers) -> Result<Self, AllocError>
        ensures { IfOk result (λ compact. compact ≡ ticked_reply ticked offers) }
    {
        let kept = match FewOffers::new(&offers) {
            Some(few) => Kept::Ticked(ticked, few),
            None => Kept::TickedMany(ticked, Box::new(alloc, offers)?),
        };
        Ok(CompactReply(kept))
    }

    /// The reply itself.
    pub fn reply(&self) -> Reply
        ensures { result ≡ self.now }
    {
        match &self.0 {
            Kept::Done => Reply::Done,
            Kept::Refused(refused) => Reply::Refused(*refused),
            Kept::Ticked(ticked, few) => Reply::Ticked(*ticked, few.offers()),
            Kept::TickedMany(ticked, offers) => Reply::Ticked(*ticked, offers_in(offers.pairs())),
            Kept::Taken(taken) => Reply::Taken(*taken),
            Kept::Ignored(ignored) => Reply::Ignored(*ignored),
            Kept::Shown(slots) => Reply::Shown(**slots),
            Kept::Skipped(skip) => Reply::Skipped(*skip),
        }
    }
}
