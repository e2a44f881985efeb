ghost use Rattle.std.specs.Prelude.{◌≡◌};
ghost use Rattle.night_record.specs.TypedInput.{input_has_ended};

use live_machine::Came;

/// Whether the input has ended, by whether it had, and by what came since. An end that was typed
/// does not end it.
pub fn input_has_ended(had_ended: bool, came: Came) -> bool
    ensures { result ≡ input_has_ended had_ended came }
{
    had_ended || came == Came::End
}
