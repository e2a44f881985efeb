ghost use Rattle.std.specs.Prelude.{◌≡◌};
ghost use Rattle.uuid.specs.Text.{hyphenated_text, lower};

use arrayvec::ArrayString;
use uuid::Uuid;

// The CID of who sends, in small letters, with hyphens.
#[tactic(auto, using(uuid::proofs::TextLemmas::by_index_length))]
pub(crate) fn cid_text(cid: [u8; 16]) -> ArrayString<36>
    ensures { result.bytes ≡ hyphenated_text lower cid }
{
    let mut buffer = Uuid::encode_buffer();
    let digits = Uuid::from_bytes(cid).hyphenated().encode_lower(&mut buffer);
    let mut text = ArrayString::new();
    text.push_str(digits);
    text
}
