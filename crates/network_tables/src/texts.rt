ghost use Rattle.std.specs.Prelude.{◌≡◌};
ghost use Rattle.network_tables.specs.Texts.{card_text, host_text};

use crate::route::CardName;
use arrayvec::ArrayString;
use itoa::Buffer;

/// A host's address: four numbers of three digits have room.
pub type HostText = ArrayString<15>;

/// A card's name, and its address in parentheses.
pub type CardText = ArrayString<33>;

/// A host's address, as `10.101.1.10`.
pub fn host_text(host: [u8; 4]) -> HostText
    ensures { result.bytes ≡ host_text host }
{
    let mut text = HostText::new();
    text.push_str(Buffer::new().format(host[0]));
    text.push_str(".");
    text.push_str(Buffer::new().format(host[1]));
    text.push_str(".");
    text.push_str(Buffer::new().format(host[2]));
    text.push_str(".");
    text.push_str(Buffer::new().format(host[3]));
    text
}

/// A card and its address, as `eth0 (10.101.1.10)`.
pub fn card_text(name: &CardName, address: [u8; 4]) -> CardText
    ensures { result.bytes ≡ card_text name.now.bytes address }
{
    let mut text = CardText::new();
    text.push_str(name.as_str());
    text.push_str(" (");
    text.push_str(host_text(address).as_str());
    text.push_str(")");
    text
}
