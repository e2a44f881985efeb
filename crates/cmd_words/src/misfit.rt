ghost use Rattle.std.specs.Prelude.{◌≡◌};
ghost use Rattle.cmd_words.specs.FormTexts.{form_text};

use thiserror::Error;

/// The form that the text of an argument should have.
#[derive(Clone, Copy, Debug, PartialEq, Eq)]
pub enum Form {
    Cue,
    Cid,
    Address,
    Target,
    /// That of a target behind 63 others at most: any text, where there are no more.
    Few,
    Priority,
    Universe,
    /// That of a universe behind 15 others at most: any text, where there are no more.
    Sixteen,
    /// That of a universe which is not named before: any text, where it is not.
    Once,
    Count,
    /// That of a flag which goes with another option: any text, where the option is there.
    ByCard,
    SourceName,
    Ttl,
    /// That of a flag which goes with another option: any text, where the option is there.
    Recorded,
    /// That of a flag which goes with another one: any text, where the other is there.
    Resumed,
    Patience,
    /// That of an option which goes with another one: any text, where the other is there.
    Followed,
    /// That of an option which goes without others: any text, where none of them is there.
    Alone,
}

impl Form {
    /// The form in words, as "a priority is a number from 0 to 200".
    pub fn text(self) -> &'static str
        ensures { result.now ≡ form_text self }
    {
        match self {
            Form::Cue => "a cue is a number from 0.001 to 9999.999, as 2.5",
            Form::Cid => "a CID is a UUID, 32 hex digits, as uuidgen prints one",
            Form::Address => {
                "an address is four numbers, as 10.0.0.7, with or without a port, as 10.0.0.7:5568"
            }
            Form::Target => {
                "a target is an address, as 10.0.0.7 or 10.0.0.7:5568, \
                    with or without its universes, as 3=10.0.0.7 or 1-8=10.0.0.7"
            }
            Form::Few => "a night has at most 64 targets",
            Form::Priority => "a priority is a number from 0 to 200",
            Form::Universe => "a universe is a number from 1 to 63999",
            Form::Sixteen => "a watch has at most 16 universes",
            Form::Once => "a watch names a universe once",
            Form::Count => "a count is a number from 1 to 1000000",
            Form::ByCard => "any route goes beside a card: --interface CARD names it",
            Form::SourceName => "a name is a text of 1 to 63 bytes, without control characters",
            Form::Ttl => "a TTL is a number from 1 to 255",
            Form::Recorded => "a night goes on in its record: --record FILE names it",
            Form::Resumed => "a spare takes up a night: give --resume too",
            Form::Patience => "a patience is a number of milliseconds from 1 to 60000",
            Form::Followed => {
                "a night waits for the main that it follows: --follow FILE names its record"
            }
            Form::Alone => {
                "a night that follows begins where its main is: leave out --resume and --start"
            }
        }
    }
}

/// An argument whose text lacks its form.
#[derive(Clone, Copy, Debug, Error)]
#[error("{argument} `{text}` lacks its form")]
pub struct Misfit<'a> {
    /// The argument's name, as `SHOW` or `cid`.
    pub argument: &'static str,

    /// The form that it should have.
    pub form: Form,

    /// Its text, as it was typed.
    pub text: &'a str,
}
