ghost use Rattle.std.specs.Prelude.{◌≡◌, ◌≤◌, ◌-◌, ◌++◌, length, replicate};
ghost use Rattle.sacn_receiver.specs.Records.{kept_entry, is_live_at, leads_at};
ghost use Rattle.sacn_receiver.specs.Source as source;
ghost use Rattle.sacn_receiver.specs.Taking.{accepted_entry, is_termination as ends};

use sacn_packet::{DataPacket, Slots};

// A record is there for less than this, in milliseconds (E1.31-2018, network data loss).
const DATA_LOSS: u64 = 2_500;

const STREAM_TERMINATED: u8 = 0x40;

// What a receiver keeps of a source: the packet of it that was accepted last. The slots lie 16
// bytes from the start, so that 16 of them at a time are read from one cache line.
#[derive(Clone, Copy, Debug, Default, PartialEq, Eq)]
pub(crate) struct Record {
    pub(crate) cid: [u8; 16],
    pub(crate) slots: Slots,
    pub(crate) moment: u64,
    pub(crate) number: u8,
    pub(crate) priority: u8,
    pub(crate) ended: bool,
}

impl Record {
    // Replaces what is kept by a packet that came at a moment.
    pub(crate) fn keep(&mut self, moment: u64, packet: &DataPacket)
        requires { length packet.now.slots ≤ 512 }
        ensures { kept_entry self.new ≡ accepted_entry moment packet.now }
    {
        self.cid = packet.cid();
        self.number = packet.sequence();
        self.moment = moment;
        self.priority = packet.priority();
        write_slots(&mut self.slots, packet.slots());
        self.ended = is_termination(packet);
    }

    pub(crate) fn is_there(&self, moment: u64) -> bool
        ensures { result ≡ source.is_there moment (kept_entry self.now) }
    {
        moment.saturating_sub(self.moment) < DATA_LOSS
    }

    pub(crate) fn is_live(&self, moment: u64) -> bool
        ensures { result ≡ is_live_at moment (kept_entry self.now) }
    {
        self.is_there(moment) && !self.ended
    }

    // Whether its slots are shown where this is the greatest priority.
    pub(crate) fn leads(&self, moment: u64, top: u8) -> bool
        ensures { result ≡ leads_at moment top (kept_entry self.now) }
    {
        self.is_live(moment) && self.priority == top
    }
}

// Writes the slots that were sent, and 0 behind them.
fn write_slots(slots: &mut Slots, sent: &[u8])
    requires { length sent.now ≤ 512 }
    ensures { slots.new ≡ sent.now ++ replicate (512 - length sent.now) 0 }
{
    let (front, behind) = slots.split_at_mut(sent.len());
    front.copy_from_slice(sent);
    behind.fill(0);
}

pub(crate) fn is_termination(packet: &DataPacket) -> bool
    ensures { result ≡ ends packet.now }
{
    packet.options() & STREAM_TERMINATED != 0
}
