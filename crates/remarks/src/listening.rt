ghost use Rattle.std.specs.Prelude.{◌≡◌, [], ◌∷◌, codes};
ghost use Rattle.remarks.specs.Listening.{group_words, of_listening};
ghost use Rattle.remarks.specs.Remarks.{remark_of};

use crate::remark::{Remark, join, part};

/// A socket is bound to this address, of this host.
pub fn of_listening(address: &str, host: [u8; 4]) -> Remark
    ensures { result.items ≡ of_listening address.now host }
{
    at_address(address, group_words(host))
}

fn at_address(address: &str, words: &str) -> Remark
    ensures { result.items ≡ remark_of (codes "listening at " ∷ address.now ∷ words.now ∷ []) }
{
    join(&[b"listening at ", part(address), part(words)])
}

fn group_words(host: [u8; 4]) -> &'static str
    ensures { result.now ≡ group_words host }
{
    match host {
        [239, 255, ..] => ": this machine hears a multicast group only where it has joined it",
        _ => "",
    }
}
