ghost use Rattle.std.specs.Prelude.{◌≡◌};
ghost use Rattle.night_lines.specs.BoothLines.{keys_ignored_line};

/// The line of keys that were left out of a typed line.
pub fn keys_ignored_line() -> &'static str
    ensures { result.now ≡ keys_ignored_line }
{
    "keys ignored\n"
}
