ghost use Rattle.std.specs.Prelude.{◌≡◌, ◌≤◌, ◌<◌, ◌++◌, [], ◌∷◌, length, take};
ghost use Rattle.remarks.specs.Remarks.{shown_character, shown_name};

use arrayvec::ArrayString;

/// The characters of a name that are shown.
pub type NameText = ArrayString<200>;

/// The first 200 characters of a file's name, each that is no printable ASCII as `?`.
pub fn of_name(name: &str) -> NameText
    ensures text { result.bytes ≡ shown_name name.now }
    ensures room { length result.bytes ≤ 200 }
{
    let mut shown = NameText::new();
    for character in name.chars() {
        push_character(&mut shown, shown_character(character));
    }
    shown
}

fn push_character(shown: &mut NameText, character: char)
    requires { character < 128 }
    ensures { shown.new.bytes ≡ take 200 (shown.old.bytes ++ character ∷ []) }
{
    if !shown.is_full() {
        shown.push(character);
    }
}

fn shown_character(character: char) -> char
    ensures value { result ≡ shown_character character }
    ensures ascii { result < 128 }
{
    match character {
        ' '..='~' => character,
        _ => '?',
    }
}
