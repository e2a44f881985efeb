//! What holds of every receiver, whatever comes to it. Each law is the contract of a function that
//! does nothing: call it where its fact is wanted.

ghost use Rattle.sacn_receiver.specs.Laws.{HeardAreAccepted, SourcesAreIndependent};
ghost use Rattle.sacn_receiver.specs.Laws.{RecordsAreIndependent, AnswersAreIndependent};
ghost use Rattle.sacn_receiver.specs.Laws.{LiveAreRecords, LiveAreApart, MergeIsByMembership};

/// A receiver whose moments never fall accepts what the source rule alone accepts of the packets
/// that it hears.
#[tactic(auto, using(crate::proofs::Independent::heard_accepted))]
pub fn heard_are_accepted()
    ensures { HeardAreAccepted }
{}

/// With no more sources than there is room for, what the source rule accepts of a source depends on
/// the packets of that source alone. For packets whose moments never fall this is what a receiver
/// keeps; `records_are_independent` says it of datagrams.
#[tactic(auto, using(crate::proofs::Independent::sources_independent))]
pub fn sources_are_independent()
    ensures { SourcesAreIndependent }
{}

/// With no more sources than there is room for, and moments that never fall, what a receiver keeps
/// of a source depends on the datagrams of that source alone. What is not heard counts for none.
#[tactic(auto, using(crate::proofs::Independent::records_independent))]
pub fn records_are_independent()
    ensures { RecordsAreIndependent }
{}

/// With no more sources than there is room for, and moments that never fall, `Receiver::take`
/// answers to a datagram as if those of its source alone had come before.
#[tactic(auto, using(crate::proofs::Independent::answers_independent))]
pub fn answers_are_independent()
    ensures { AnswersAreIndependent }
{}

/// The live records are those that are there and not ended, one of each source at most.
pub fn live_are_records()
    ensures members { LiveAreRecords }
    ensures apart { LiveAreApart }
{}

/// Live sources with the same priorities and slots show alike, in whichever order.
#[tactic(auto, using(crate::proofs::Independent::by_membership))]
pub fn merge_is_by_membership()
    ensures { MergeIsByMembership }
{}
