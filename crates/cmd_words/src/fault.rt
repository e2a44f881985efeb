ghost use Rattle.std.specs.Prelude.{◌≡◌};
ghost use Rattle.cmd_words.specs.Asked.{words_fault};
ghost use Rattle.cmd_words.specs.declared.fault.Unread.TheVariants.{Unfit, Memory};

use crate::misfit::Misfit;
use std::alloc::AllocError;
use thiserror::Error;

/// Why words give no job.
#[derive(Debug, Drop, Error)]
pub enum WordsFault {
    /// No line takes the words, or they ask for help. The error has the text for the user; its kind
    /// says whether that goes to standard output, as help does, and how the program ends.
    #[error(transparent)]
    Refused(clap::Error),

    /// A line takes the words, and one of its arguments lacks its form: [`read_or_explain`] says
    /// which.
    ///
    /// [`read_or_explain`]: crate::read_or_explain
    #[error("an argument lacks its form")]
    Unfit,

    /// An allocation failed.
    #[error("memory")]
    Memory,
}

/// Why words give no job, and which argument is unfit.
#[derive(Debug, Drop, Error)]
pub enum Unread<'a> {
    /// As [`WordsFault::Refused`].
    #[error(transparent)]
    Refused(clap::Error),

    /// A line takes the words, and this argument, the first in the line's order, lacks its form.
    #[error(transparent)]
    Unfit(Misfit<'a>),

    /// An allocation failed.
    #[error("memory")]
    Memory,
}

impl From<Unread<'_>> for WordsFault {
    ghost from_gives = { λ unread fault. fault ≡ words_fault unread };

    fn from(unread: Unread<'_>) -> WordsFault {
        match unread {
            Unread::Refused(error) => WordsFault::Refused(error),
            Unread::Unfit(_misfit) => WordsFault::Unfit,
            Unread::Memory => WordsFault::Memory,
        }
    }
}

impl<'a> From<Misfit<'a>> for Unread<'a> {
    ghost from_gives = { λ misfit unread. unread ≡ Unfit misfit };

    fn from(misfit: Misfit<'a>) -> Unread<'a> {
        Unread::Unfit(misfit)
    }
}

impl<'a> From<AllocError> for Unread<'a> {
    ghost from_gives = { λ _ unread. unread ≡ Memory };

    fn from(_error: AllocError) -> Unread<'a> {
        Unread::Memory
    }
}
