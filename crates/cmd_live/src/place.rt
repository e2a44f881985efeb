ghost use Rattle.std.specs.Prelude.{◌≡◌};
ghost use Rattle.console.specs.Stands.{OfEach};
ghost use Rattle.cmd_live.specs.Shown as shown;
ghost use Rattle.cmd_live.specs.Shown.{shown_place};
ghost use Rattle.cmd_live.specs.Stands.{ShowsText};

use crate::booth::Booth;
use console::{Console, where_line};
use devices::Link;
use fade_core::Fader;

// Shows where the night is, at a moment.
pub fn show_place<F: Fader, B: Booth, L: Link>(
    console: &Console<F>,
    moment: u64,
    booth: &mut B,
    link: &L,
)
    ensures told { B.tells booth.new → B.tells booth.old }
    ensures shows { OfEach F.stands_for console.now (λ p history. B.tells booth.new
        → ShowsText (L.offered link.now) (B.state booth.old) (B.state booth.new)
        (shown_place p.show history moment)) }
{
    let current = console.current();
    let next = console.show().next(current.unwrap_or(0));
    let line = where_line(moment, current, next, console.masters());
    let _ = booth.show(line.as_str().as_bytes(), link);
}

// The commands, a line each.
pub fn help_text() -> &'static str
    ensures { result.now ≡ shown.help_text }
{
    "go, back              the next cue, the one before\n\
    goto 4.5              this cue; goto 4.5 in 3: in three seconds, goto 4.5 in 0: at once\n\
    sub 3 50, group 1 FL  a submaster, a group: 0 to 100 percent, FL, or H00 to HFF\n\
    master 80             the grand master\n\
    where                 the current cue, the next one, and what masters are at\n\
    end                   ends the night, dark; leave: receivers keep the light or drop it\n"
}
