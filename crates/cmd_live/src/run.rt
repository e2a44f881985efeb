ghost use Rattle.std.specs.Prelude.{◌≡◌};
ghost use Rattle.cmd_live.specs.Night.{IsEnd, HasLived, trace_of};
ghost use Rattle.cmd_live.specs.Stands.{HasHistory, OfEach};

use crate::booth::Booth;
use crate::night::Night;
use cmd_faults::RunFault;
use devices::{Link, LinkFault};
use fade_core::Fader;

// Of the time between a record and the night that goes on behind it, in milliseconds, so much
// counts.
const LONGEST_GAP: u64 = 10_000;

impl<F: Fader> Night<F> {
    /// Runs the night: sets the clock to the moment of the last line and what has passed since, in
    /// milliseconds, at most ten seconds of it; and then carries out what is typed and the ticks,
    /// each at its moment, until three ticks after `end`. A night may last until its moments reach
    /// 2^48 milliseconds.
    ///
    /// Each line is recorded before it is carried out. Answers, moves to cues, and what `where` and
    /// `help` ask for are shown behind what is offered; why a line is refused is told. No send, and
    /// nothing that is recorded, shown or told, ends the night.
    ///
    /// # Errors
    ///
    /// `Device` where the clock or the wait for what is typed failed; and `Lost`, with their
    /// number, where the night is over and packets were lost.
    pub fn live<B: Booth, L: Link>(
        &mut self,
        passed: u64,
        booth: &mut B,
        link: &mut L,
    ) -> Result<(), RunFault>
        requires real { HasHistory F.stands_for self.old }
        requires none_lost { self.old.lost ≡ 0 }
        ensures ends { IsEnd result }
        ensures lived { OfEach F.stands_for self.old (λ p first. B.tells booth.new
            → L.tells link.new
            → HasLived p first passed result (trace_of (B.state booth.old) (L.offered link.old))
            (trace_of (B.state booth.new) (L.offered link.new))) }
        ensures told_booth { B.tells booth.new → B.tells booth.old }
        ensures told_link { L.tells link.new → L.tells link.old }
    {
        booth.begin(self.input.moment() + passed.min(LONGEST_GAP));
        match self.run(booth, link) {
            Ok(()) if self.lost == 0 => Ok(()),
            Ok(()) => Err(RunFault::Lost(self.lost)),
            Err(LinkFault) => Err(RunFault::Device),
        }
    }
}
