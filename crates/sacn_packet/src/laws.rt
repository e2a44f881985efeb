//! What holds of every packet, whoever wrote it. Each law is the contract of a function that does
//! nothing: call it where its fact is wanted.

ghost use Rattle.std.specs.Prelude.{◌≡◌, ◌++◌, ℕ, List, take};
ghost use Rattle.sacn_packet.specs.Faults.{fault_of};
ghost use Rattle.sacn_packet.specs.Name.{IsSourceName, name_in, padded_name};
ghost use Rattle.sacn_packet.specs.Reading.{front_packet};
ghost use Rattle.sacn_packet.specs.Wire.{Fields, HasPacket, IsData, WirePacket};

/// The fields and the slots leave no byte of a packet open.
pub fn only_bytes()
    ensures { (p q : List ℕ) (fields : Fields) (slots : List ℕ) →
        IsData p fields slots → IsData q fields slots → p ≡ q }
{}

/// At most one prefix of a datagram is a packet, and it is one packet only.
pub fn only_prefix()
    ensures { (datagram : List ℕ) (m n : ℕ) (one other : WirePacket) →
        IsData (take m datagram) one.fields one.slots →
        IsData (take n datagram) other.fields other.slots →
        (take m datagram ≡ take n datagram) × (one ≡ other) }
{}

/// A datagram that holds a packet has no fault, and the packet ends where its root length says.
pub fn front()
    ensures { (datagram : List ℕ) (packet : WirePacket) → HasPacket datagram packet →
        (fault_of datagram ≡ None) × (front_packet datagram ≡ packet) }
{}

/// What was written is read again, also with bytes behind it, and nothing else is.
pub fn read_back()
    ensures { (bytes behind : List ℕ) (packet : WirePacket)
        → IsData bytes packet.fields packet.slots →
        HasPacket (bytes ++ behind) packet
        × ((found : WirePacket) → HasPacket (bytes ++ behind) found → found ≡ packet) }
{}

/// The field of a source name gives the name back.
pub fn name_back()
    ensures { (name : List ℕ) → IsSourceName name → name_in (padded_name name) ≡ name }
{}
