ghost use Rattle.std.specs.Prelude.{◌≡◌, ◌↔◌, ◌%◌, ◌++◌, IsTrue, OnOk, length};
ghost use Rattle.std.specs.List.{AllPass};
ghost use Rattle.hex.specs.Hex.{is_hex_digit};
ghost use Rattle.cmd_rehearse.specs.Forms.{hex_bytes};

use std::alloc::{AllocError, Global};
use std::marker::Model;

// The bytes that an even number of hex digits spell. Contracts see the bytes.
#[derive(Debug, Drop)]
pub struct HexBytes<'a> {
    digits: &'a [u8],
}

impl<'a> Model for HexBytes<'a> {
    ghost use Rattle.std.specs.Prelude.{◌≡◌, ℕ, List, [], unwrap_or, is_some, true};
    ghost use Rattle.cmd_rehearse.specs.Forms.{hex_bytes};

    ghost Value = { List ℕ };

    ghost view = { λ hex. unwrap_or (hex_bytes hex.digits.now) [] };

    ghost invariant = { λ hex. is_some (hex_bytes hex.digits.now) ≡ true };
}

fn is_hex(digits: &[u8]) -> bool
    ensures { IsTrue result
        ↔ ((length digits.now % 2 ≡ 0) × AllPass is_hex_digit digits.now) }
{
    digits.len() % 2 == 0 && digits.iter().all(|digit| digit.is_ascii_hexdigit())
}

impl<'a> HexBytes<'a> {
    // The bytes of this word; `None` where a byte of it is no hex digit, or their number is odd.
    pub fn new(digits: &'a [u8]) -> Option<HexBytes<'a>>
        ensures { result ≡ hex_bytes digits.now }
    {
        if is_hex(digits) {
            Some(HexBytes { digits })
        } else {
            None
        }
    }

    // Puts the bytes behind those that are there.
    pub fn append_to(&self, alloc: Global, bytes: &mut Vec<u8>) -> Result<(), AllocError>
        ensures { OnOk result (bytes.new.items ≡ bytes.old.items ++ self.now) }
    {
        match hex::decode(alloc, self.digits) {
            Ok(decoded) => bytes.extend_from_slice(&decoded),
            Err(_) => Err(AllocError),
        }
    }
}
