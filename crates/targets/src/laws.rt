//! What holds of every run over targets. A law does nothing: its contract is the law.

ghost use Rattle.targets.specs.Addressed.{AddressedLaw};

/// What a sender was offered is what the source sent, address by address, whatever failed: where
/// each packet went to all addresses of its universe, as those of a [`TargetLink`](crate::TargetLink)
/// do.
#[tactic(auto, using(crate::proofs::Packets::addressed_all))]
pub fn addressed_law()
    ensures { AddressedLaw }
{}
