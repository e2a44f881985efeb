//! What holds of every rehearsal. Each law is the contract of a function that does nothing: call
//! it where its fact is wanted.

ghost use Rattle.wire_world.specs.Laws.{Headline, UnpatchedSlotsAreZero, WindowLaw, SilenceIsDark};
ghost use Rattle.wire_world.specs.Laws.{MergeLaw, ConsolesAreIndependent, DatagramsArePackets};

/// While losses, repeats and reorderings stay in the window, whenever the newest packet sent first
/// arrived less than 2,500 ms ago, a receiver of one console shows what that console's show means
/// at the latest tick, under the commands before that tick. A slot without a patched channel is 0.
#[tactic(auto, using(crate::proofs::Shown::headline))]
pub fn headline()
    ensures means { Headline }
    ensures unpatched { UnpatchedSlotsAreZero }
{}

/// While losses, repeats and reorderings stay in the window, a receiver of one console shows one
/// of its newest packets, or all slots are 0; they are 0 where none arrived less than 2,500 ms
/// ago.
#[tactic(auto, using(crate::proofs::Shown::window_law, crate::proofs::Shown::silence_dark))]
pub fn window_law()
    ensures near { WindowLaw }
    ensures silence { SilenceIsDark }
{}

/// A receiver of at most four consoles shows, slot by slot, the greatest of what those of the
/// greatest priority mean, where each is fresh or silent; the silent and the ended count for
/// nothing.
#[tactic(auto, using(crate::proofs::Shown::merge_law))]
pub fn merge_law()
    ensures { MergeLaw }
{}

/// No console changes what a receiver answers to another, nor what it keeps of another.
#[tactic(auto, using(crate::proofs::Came::consoles_independent))]
pub fn consoles_are_independent()
    ensures { ConsolesAreIndependent }
{}

/// What a receiver is handed as a packet of a console is that packet of the console's stream, in
/// the bytes that E1.31 asks for.
#[tactic(auto, using(crate::proofs::Wire::datagrams_packets))]
pub fn datagrams_are_packets()
    ensures { DatagramsArePackets }
{}
