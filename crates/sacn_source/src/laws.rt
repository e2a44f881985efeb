//! What holds of every stream. Each law is the contract of a function that does nothing: call it
//! where its fact is wanted.

ghost use Rattle.sacn_source.specs.Laws.{AnswersAreAlike, KeepAlivesAreLate};
ghost use Rattle.sacn_source.specs.Laws.{NewestPacketIsNewestFrame, PacketsAreClose};

/// Where the offers of a universe are at most 200 ms apart, its packets, terminations aside, are
/// less than 1,000 ms apart.
pub fn packets_are_close()
    ensures { PacketsAreClose }
{}

/// A packet that is no change, no repeat and no termination is at least 800 ms after the one
/// before.
pub fn keep_alives_are_late()
    ensures { KeepAlivesAreLate }
{}

/// Until a termination the newest packet has the frame that was offered last.
pub fn newest_packet_is_newest_frame()
    ensures { NewestPacketIsNewestFrame }
{}

/// Two senders that stand for the same offers answer alike, but that their links decide between
/// sent and lost.
pub fn answers_are_alike()
    ensures { AnswersAreAlike }
{}
