ghost use Rattle.std.specs.Prelude.{◌≡◌};
ghost use Rattle.night_lines.specs.Led.{led_reason};
ghost use Rattle.remarks.specs.Remarks.{refused_line};

use arrayvec::ArrayVec;
use night_lines::led_reason;
use remarks::refused_line;

/// The line that tells that what is typed while the night follows a main is not carried out.
pub fn led_refusal_line(text: &[u8]) -> ArrayVec<u8, 513>
    ensures { result.items ≡ refused_line text.now led_reason }
{
    refused_line(text, led_reason())
}
