ghost use Rattle.std.specs.Prelude.{◌≡◌, ◌<◌};
ghost use Rattle.night_lines.specs.Clock.{clock_text, two_digits};

use arrayvec::ArrayString;
use itoa::Buffer;

/// A moment of a night: 20 digits of hours have room.
pub type ClockText = ArrayString<34>;

/// A moment of a night, in milliseconds, as `1:02:03`.
pub fn clock_text(moment: u64) -> ClockText
    ensures { result.bytes ≡ clock_text moment }
{
    let mut text = ClockText::new();
    text.push_str(Buffer::new().format(moment / 3_600_000));
    text.push_str(":");
    text.push_str(two_digits((moment / 60_000 % 60) as u8).as_str());
    text.push_str(":");
    text.push_str(two_digits((moment / 1000 % 60) as u8).as_str());
    text
}

fn two_digits(number: u8) -> ArrayString<6>
    requires { number < 100 }
    ensures { result.bytes ≡ two_digits number }
{
    let mut text = ArrayString::new();
    text.push_str(Buffer::new().format(number / 10));
    text.push_str(Buffer::new().format(number % 10));
    text
}
