ghost use Rattle.std.specs.Prelude.{◌≡◌, ◌↔◌, IsTrue, replicate};
ghost use Rattle.sacn_packet.specs.Name.{IsSourceName, padded_name};

use std::marker::Model;

/// The name that a source gives itself, for people to read: at most 63 bytes of UTF-8 without a
/// zero byte (E1.31-2018, framing layer: source name). Contracts see it as its bytes.
#[derive(Clone, Copy, Debug, PartialEq, Eq)]
pub struct SourceName {
    field: [u8; 64],
}

impl Model for SourceName {
    ghost use Rattle.std.specs.Prelude.{◌≡◌, List, ℕ};
    ghost use Rattle.std.proofs.Common.{sym, ap};
    ghost use Rattle.sacn_packet.specs.Name.{padded_name, name_in};

    ghost Value = { List ℕ };

    ghost view = { λ a. name_in a.field };

    ghost invariant = { λ a. a.field ≡ padded_name (name_in a.field) };

    ghost inverse = { λ name. record { field = padded_name name } };

    ghost inverse_ok = { λ a h. ap (λ (field : List ℕ). record { field = field }) (sym h) };
}

impl SourceName {
    ghost use Rattle.std.specs.Option.{SomeIff};

    /// The name of this text, or `None` where it has more than 63 bytes or a zero byte.
    pub fn new(name: &str) -> Option<SourceName>
        ensures { SomeIff result (IsSourceName name.now) name.now }
    {
        let text = name.as_bytes();
        if !is_source_name(text) {
            return None;
        }
        let mut field = [0; 64];
        write_name(&mut field, text);
        Some(SourceName { field })
    }

    // The field of the packet that carries this name.
    pub(crate) fn field(&self) -> &[u8; 64]
        ensures { result.now ≡ padded_name self.now }
    {
        &self.field
    }
}

fn is_source_name(text: &[u8]) -> bool
    ensures { IsTrue result ↔ IsSourceName text.now }
{
    text.len() <= 63 && text.iter().all(|byte| *byte > 0)
}

// Writes the name at the front of a field of zero bytes.
fn write_name(field: &mut [u8], text: &[u8])
    requires empty { field.old ≡ replicate 64 0 }
    requires name { IsSourceName text.now }
    ensures { field.new ≡ padded_name text.now }
{
    field[..text.len()].copy_from_slice(text);
}
