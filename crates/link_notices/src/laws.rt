//! What holds of every night. A law does nothing: its contract is the law.

ghost use Rattle.link_notices.specs.Nights.{PathsLaw, SourcesLaw};

/// A trouble on the way to a host is told once when it begins, and once when it is over; nothing is
/// told twice in a row, and nothing while the way has no link.
#[tactic(auto, using(crate::proofs::Turns::paths))]
pub fn paths_law()
    ensures { PathsLaw }
{}

/// How an address is, is told where it changes, and at no other look.
#[tactic(auto, using(crate::proofs::Turns::sources))]
pub fn sources_law()
    ensures { SourcesLaw }
{}
