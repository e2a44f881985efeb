ghost use Rattle.std.specs.Prelude.{◌≡◌, IfOk};
ghost use Rattle.wire_world.specs.Stands.{order_reply, tick_reply};
ghost use Rattle.wire_world.specs.Replies.{taken_reply};

use crate::Offers;
use crate::compact_reply::{CompactReply, Kept};
use desk_core::{Refused, Ticked};
use sacn_receiver::{Ignored, Taken};
use std::alloc::{AllocError, Global};

pub(crate) fn order_reply(answer: Result<(), Refused>) -> CompactReply
    ensures { result ≡ order_reply answer }
{
    match answer {
        Ok(()) => CompactReply(Kept::Done),
        Err(refused) => CompactReply(Kept::Refused(refused)),
    }
}

pub(crate) fn tick_reply(
    alloc: Global,
    answer: Result<(Ticked, Offers), Refused>,
) -> Result<CompactReply, AllocError>
    ensures { IfOk result (λ reply. reply ≡ tick_reply answer) }
{
    match answer {
        Ok((ticked, offers)) => CompactReply::ticked(alloc, ticked, offers),
        Err(refused) => Ok(CompactReply(Kept::Refused(refused))),
    }
}

pub(crate) fn datagram_reply(answer: Result<Taken, Ignored>) -> CompactReply
    ensures { result ≡ taken_reply answer }
{
    match answer {
        Ok(taken) => CompactReply(Kept::Taken(taken)),
        Err(ignored) => CompactReply(Kept::Ignored(ignored)),
    }
}
