ghost use Rattle.std.specs.Prelude.{◌≡◌, take};
ghost use Rattle.sacn_packet.specs.Name.{padded_name};
ghost use Rattle.cmd_listen.specs.Sources as sources;

use sacn_packet::DataPacket;

// A source is here for less than this, in milliseconds (E1.31-2018, network data loss).
const DATA_LOSS: u64 = 2_500;

/// A live source of a universe, by the last packet of it that was accepted.
#[derive(Clone, Copy, Debug, Default, PartialEq, Eq)]
pub struct Source {
    pub cid: [u8; 16],
    /// As sent, with zero bytes up to 64.
    pub name: [u8; 64],
    pub priority: u8,
    pub number: u8,
    pub moment: u64,
}

impl Source {
    // The source of a packet that came at a moment.
    pub fn new(moment: u64, packet: &DataPacket) -> Source
        ensures { result ≡ sources.source_of moment packet.now }
    {
        Source {
            cid: packet.cid(),
            name: name_field(packet.name()),
            priority: packet.priority(),
            number: packet.sequence(),
            moment,
        }
    }

    pub fn is_of(&self, cid: &[u8; 16]) -> bool
        ensures { result ≡ sources.is_of cid.now self.now }
    {
        *cid == self.cid
    }

    pub fn is_here(&self, moment: u64) -> bool
        ensures { result ≡ sources.is_here moment self.now }
    {
        moment.saturating_sub(self.moment) < DATA_LOSS
    }

    // Whether another is of the same CID, name and priority.
    pub fn is_alike(&self, other: &Source) -> bool
        ensures { result ≡ sources.is_alike self.now other.now }
    {
        self.cid == other.cid && self.name == other.name && self.priority == other.priority
    }
}

// The first 64 bytes of a name, with zero bytes up to 64.
fn name_field(name: &[u8]) -> [u8; 64]
    ensures { result ≡ padded_name (take 64 name.now) }
{
    let sent = &name[..name.len().min(64)];
    let mut field = [0; 64];
    field[..sent.len()].copy_from_slice(sent);
    field
}
