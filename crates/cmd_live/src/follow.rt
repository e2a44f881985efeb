ghost use Rattle.std.specs.Prelude.{◌≡◌, OnSome};
ghost use Rattle.console.specs.Streams.{Production};
ghost use Rattle.live_input.specs.Night.{now};
ghost use Rattle.cmd_live.specs.Beginning.{CanFollow, HasTakenUp, IsReady};
ghost use Rattle.cmd_live.specs.Following.{FollowsMain, HasFollowed, end_of_pause};
ghost use Rattle.cmd_live.specs.Night.{history_at};
ghost use Rattle.cmd_live.specs.Shown.{shown_place};
ghost use Rattle.cmd_live.specs.Stands.{OfEach, ShowsText};

use crate::booth::Booth;
use crate::main_console::{Led, MainConsole};
use crate::night::Night;
use crate::place;
use devices::Link;
use fade_core::Fader;
use live_machine::FollowEnd;

/// Why a night does not follow for now.
#[derive(Clone, Copy, Debug, PartialEq, Eq)]
pub enum Pause {
    /// `where` was typed. Then it may follow again.
    Asked,
    /// The following has ended, or the night is over.
    Ended,
    /// No live night gives the newest line behind those before it. Then this night is of no use any
    /// more.
    Other,
}

impl Pause {
    // Why a night does not follow its main for now, by whether it is over; `None` at a line that no
    // live night gives.
    fn follow_end(self, is_over: bool) -> Option<FollowEnd>
        ensures { result ≡ end_of_pause self is_over }
    {
        match self {
            Pause::Asked => Some(FollowEnd::Asked),
            Pause::Ended if is_over => Some(FollowEnd::Over),
            Pause::Ended => Some(FollowEnd::Ended),
            Pause::Other => None,
        }
    }
}

impl<F: Fader> Night<F> {
    /// Follows a main: takes up the lines of its record as they come, each at its moment, and
    /// offers to the link what is due. Nothing that is typed is carried out.
    pub fn follow<M: MainConsole, L: Link>(&mut self, main: &mut M, link: &mut L) -> Pause
        requires ready { IsReady self.old }
        requires real { (p : Production) × HasTakenUp F.stands_for p self.old }
        ensures follows { HasFollowed F.stands_for (M.tells main.new × L.tells link.new) result
            self.old self.new (M.given main.old) (M.given main.new) (L.offered link.old)
            (L.offered link.new) }
        ensures told_main { M.tells main.new → M.tells main.old }
        ensures told_link { L.tells link.new → L.tells link.old }
    {
        // One line a nanosecond would last for 584 years.
        for _turn in 0..u64::MAX {
            match main.next() {
                Led::Line(line) => {
                    if !self.recall(line.as_slice(), link) {
                        return Pause::Other;
                    }
                }
                Led::Where => return Pause::Asked,
                Led::End => return Pause::Ended,
            }
            if self.is_over() {
                return Pause::Ended;
            }
        }
        Pause::Ended
    }

    /// Follows a main, as [`Night::follow`] does: why the night does not for now, or `None` at a
    /// line that no live night gives. Unless it was that, the night can follow on.
    pub fn follow_main<M: MainConsole, L: Link>(
        &mut self,
        main: &mut M,
        link: &mut L,
    ) -> Option<FollowEnd>
        requires { CanFollow F.stands_for self.old }
        ensures follows { FollowsMain F.stands_for (M.tells main.new × L.tells link.new) result
            self.old self.new (M.given main.old) (M.given main.new) (L.offered link.old)
            (L.offered link.new) }
        ensures on { OnSome result (CanFollow F.stands_for self.new) }
        ensures told_main { M.tells main.new → M.tells main.old }
        ensures told_link { L.tells link.new → L.tells link.old }
    {
        let pause = self.follow(main, link);
        pause.follow_end(self.is_over())
    }

    /// Shows where the night is, at the moment of its last line, behind all that is offered to this
    /// link.
    pub fn show_place<B: Booth, L: Link>(&self, booth: &mut B, link: &L)
        ensures told { B.tells booth.new → B.tells booth.old }
        ensures shows { OfEach F.stands_for self.now (λ p happened. B.tells booth.new
            → ShowsText (L.offered link.now) (B.state booth.old) (B.state booth.new)
            (shown_place p.show (history_at p.show happened) (now happened))) }
    {
        place::show_place(&self.console, self.moment(), booth, link);
    }
}
