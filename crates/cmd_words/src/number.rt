ghost use Rattle.std.specs.Prelude.{◌≡◌, ◌≤◌, IfSome};
ghost use Rattle.cmd_words.specs.Number.{number_between};

use ascii_text::whole;

/// The greatest number of a universe.
pub(crate) const TOP_UNIVERSE: u32 = 63_999;

/// The number from least to most that a text spells.
pub(crate) fn number_between(text: &str, least: u32, most: u32) -> Option<u32>
    ensures value { result ≡ number_between least most text.now }
    ensures within { IfSome result (λ number. (least ≤ number) × (number ≤ most)) }
{
    let number = whole(text.as_bytes(), most)?;
    if number < least { None } else { Some(number) }
}
