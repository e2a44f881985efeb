ghost use Rattle.std.specs.Prelude.{◌≡◌};
ghost use Rattle.night_lines.specs.Records.{ending_line, input_ended_line, typed_end_line};

/// The line of what ends a night, by whether control-C does.
pub fn ending_line(is_interruptible: bool) -> &'static str
    ensures { result.now ≡ ending_line is_interruptible }
{
    if is_interruptible {
        "end ends the night, leave leaves the light to others\n"
    } else {
        "end ends the night, leave leaves the light to others; control-C does nothing\n"
    }
}

/// The line of an input that ended, and a night that goes on.
pub fn input_ended_line() -> &'static str
    ensures { result.now ≡ input_ended_line }
{
    "input ended: the light holds; SIGTERM to the program ends the night \
        (--end-with-input ends it with its input)\n"
}

/// The line of an end of the input that was typed.
pub fn typed_end_line() -> &'static str
    ensures { result.now ≡ typed_end_line }
{
    "type end to end the night\n"
}
