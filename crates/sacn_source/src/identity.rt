ghost use Rattle.std.specs.Prelude.{◌≡◌, ◌≤◌};
ghost use Rattle.std.specs.Option.{SomeIff};
ghost use Rattle.sacn_packet.specs.Header as header;
ghost use Rattle.sacn_source.specs.Identify.{packet_fields};

use sacn_packet::{Header, SourceName};
use std::marker::Model;

/// Who a source is: its component identifier, its name and its priority.
#[derive(Clone, Copy, Debug, PartialEq, Eq)]
pub struct Identity {
    cid: [u8; 16],
    name: SourceName,
    priority: u8,
}

impl Model for Identity {
    ghost use Rattle.std.specs.Prelude.{◌≤◌};
    ghost use Rattle.sacn_source.specs.Identity as who;

    ghost Value = { who.Identity };

    ghost view = { λ a. record { cid = a.cid; name = a.name; priority = a.priority } };

    ghost invariant = { λ a. a.priority ≤ 200 };

    ghost inverse = { λ a. record { cid = a.cid; name = a.name; priority = a.priority } };
}

impl Identity {
    /// The source of this component identifier (a UUID), name and priority (0 to 200; of two
    /// sources of a universe the greater wins), or `None` where the priority is above 200.
    pub fn new(cid: [u8; 16], name: SourceName, priority: u8) -> Option<Identity>
        ensures { SomeIff result (priority ≤ 200)
            (record { cid = cid; name = name; priority = priority }) }
    {
        if priority > 200 {
            return None;
        }
        Some(Identity {
            cid,
            name,
            priority,
        })
    }

    // What the source's first packet to a universe says.
    pub(crate) fn header(&self, universe: u16) -> Header
        ensures fields { header.header_fields result ≡ packet_fields self.now universe 0 0 }
        ensures priority { result.priority ≤ 200 }
        ensures universe { result.universe ≡ universe }
    {
        Header {
            cid: self.cid,
            name: self.name,
            priority: self.priority,
            sequence: 0,
            options: 0,
            universe,
        }
    }
}
