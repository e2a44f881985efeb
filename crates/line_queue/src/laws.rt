//! What holds of every night. A law does nothing: its contract is the law.

ghost use Rattle.line_queue.specs.Watches.{NoticesLaw};

/// The notices of an output over a night: late and whole again, or late and with lines missing, in
/// turn; a failure once, and nothing behind it. Lines are said to be missing only if a notice in
/// the output says so.
#[tactic(auto, using(crate::proofs::Watching::notices))]
pub fn notices_law()
    ensures { NoticesLaw }
{}
