ghost use Rattle.std.specs.Prelude.{◌≡◌, ◌==◌, ◌<◌, ◌∷◌, ℕ, List, Option, None, option_map, true};
ghost use Rattle.std.specs.Prelude.{false, MatchOption};
ghost use Rattle.std.specs.List.{list_any, before_first, after_first};
ghost use Rattle.ascii_text.specs.Forms.{whole_of};
ghost use Rattle.cmd_words.specs.Address.{address_of, host_of, octet_before};

use ascii_text::whole;

// ACN_SDT_MULTICAST_PORT of E1.31: where a source sends if nothing else is said.
const DEFAULT_PORT: u16 = 5568;

/// The IPv4 address and the UDP port that a text spells: `a.b.c.d:port`, or `a.b.c.d` with port
/// 5568. Each number is 1 to 9 digits, zeros in front included.
pub(crate) fn address(text: &str) -> Option<([u8; 4], u16)>
    ensures { result ≡ address_of text.now }
{
    match split_once(text, ':') {
        Some((before, after)) => Some((host(before)?, port(after)?)),
        None => Some((host(text)?, DEFAULT_PORT)),
    }
}

fn host(text: &str) -> Option<[u8; 4]>
    ensures { result ≡ host_of text.now }
{
    let (a, text) = octet_before(text)?;
    let (b, text) = octet_before(text)?;
    let (c, text) = octet_before(text)?;
    Some([a, b, c, octet(text)?])
}

// The number up to 255 before the first point, and the text behind that point.
fn octet_before(text: &str) -> Option<(u8, &str)>
    ensures { MatchOption result ((form : List ℕ → Option (List ℕ)) → octet_before form text.now
        ≡ None)
        (λ parts. (form : List ℕ → Option (List ℕ)) →
        octet_before form text.now ≡ option_map (λ octets. parts.0 ∷ octets) (form parts.1.now)) }
{
    let (before, after) = split_once(text, '.')?;
    Some((octet(before)?, after))
}

fn octet(text: &str) -> Option<u8>
    ensures { result ≡ whole_of 255 text.now }
{
    let number = whole(text.as_bytes(), 255)?;
    Some(number as u8)
}

fn port(text: &str) -> Option<u16>
    ensures { result ≡ whole_of 65535 text.now }
{
    let number = whole(text.as_bytes(), 65535)?;
    Some(number as u16)
}

// What stands before and behind the first `mark`.
pub(crate) fn split_once(text: &str, mark: char) -> Option<(&str, &str)>
    requires { mark < 128 }
    ensures { MatchOption result (list_any (λ b. b == mark) text.now ≡ false)
        (λ parts. (list_any (λ b. b == mark) text.now ≡ true)
        × (parts.0.now ≡ before_first (λ b. b == mark) text.now)
        × (parts.1.now ≡ after_first (λ b. b == mark) text.now)) }
{
    text.split_once(mark)
}
