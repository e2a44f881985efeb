ghost use Rattle.std.specs.Prelude.{◌≡◌, IfOk};

use crate::{CompactReply, Reply};
use show_core::Frame;
use std::alloc::{AllocError, Global};
use std::marker::Model;

/// What came of a rehearsal.
#[derive(Debug, Drop)]
pub struct Report {
    /// The reply to each event, by its place.
    pub replies: Vec<Reply>,
    /// The slots of each receiver at the moment of the last event that was not skipped, or at 0
    /// where there is none; each is 0 to 255.
    pub last: Vec<Frame>,
}

impl Model for Report {
    ghost use Rattle.wire_world.specs.Reported.{RehearsalReport};

    ghost Value = { RehearsalReport };

    ghost view = { λ a. record { replies = a.replies.items; last = a.last.items } };
}

/// What came of a rehearsal, each reply in little room.
#[derive(Debug, Drop)]
pub struct CompactReport {
    /// The reply to each event, by its place.
    pub replies: Vec<CompactReply>,
    /// The slots of each receiver, as in a [`Report`].
    pub last: Vec<Frame>,
}

impl Model for CompactReport {
    ghost use Rattle.wire_world.specs.Reported.{RehearsalReport};

    ghost Value = { RehearsalReport };

    ghost view = { λ a. record { replies = a.replies.items; last = a.last.items } };
}

impl CompactReport {
    // The report itself.
    pub(crate) fn report(self, alloc: Global) -> Result<Report, AllocError>
        ensures { IfOk result (λ report. report ≡ self) }
    {
        let replies = replies_of(alloc, self.replies.as_slice())?;
        Ok(Report {
            replies,
            last: self.last,
        })
    }
}

// The replies themselves.
fn replies_of(alloc: Global, compact: &[CompactReply]) -> Result<Vec<Reply>, AllocError>
    ensures { IfOk result (λ replies. replies.items ≡ compact.now) }
{
    let mut replies = Vec::with_capacity(alloc, compact.len())?;
    for reply in compact {
        replies.push(reply.reply())?;
    }
    Ok(replies)
}
