ghost use Rattle.std.specs.Prelude.{◌≡◌, ◌≤◌, length, map};
ghost use Rattle.std.specs.List.{list_any};
ghost use Rattle.sacn_receiver.specs.Shown.{greatest};
ghost use Rattle.cmd_listen.specs.Sources as spec;
ghost use Rattle.cmd_listen.specs.Universe.{sources_with};

use crate::source::Source;
use arrayvec::ArrayVec;
use sacn_packet::DataPacket;
use sacn_receiver::SOURCES;

/// The live sources of a universe, the one that was heard last first.
pub type Sources = ArrayVec<Source, SOURCES>;

const STREAM_TERMINATED: u8 = 0x40;

// Those that are here at a moment.
pub fn here(sources: &[Source], moment: u64) -> Sources
    requires { length sources.now ≤ 4 }
    ensures { result.items ≡ spec.here moment sources.now }
{
    let mut left = Sources::new();
    for source in sources {
        if source.is_here(moment) {
            left.push(*source);
        }
    }
    left
}

// Those of other CIDs.
fn without(sources: &[Source], cid: &[u8; 16]) -> Sources
    requires { length sources.now ≤ 4 }
    ensures { result.items ≡ spec.without_cid cid.now sources.now }
{
    let mut left = Sources::new();
    for source in sources {
        if !source.is_of(cid) {
            left.push(*source);
        }
    }
    left
}

// A source in front of those of other CIDs.
fn with_source(sources: &[Source], source: Source) -> Sources
    requires { length sources.now ≤ 4 }
    ensures { result.items ≡ spec.with_source source sources.now }
{
    let mut all = without(sources, &source.cid);
    all.truncate(SOURCES - 1);
    all.insert(0, source);
    all
}

// The sources behind a packet that came at a moment.
pub fn sources_with(sources: &[Source], moment: u64, packet: &DataPacket) -> Sources
    requires { length sources.now ≤ 4 }
    ensures { result.items ≡ sources_with moment packet.now sources.now }
{
    if packet.options() & STREAM_TERMINATED != 0 {
        without(sources, &packet.cid())
    } else {
        with_source(sources, Source::new(moment, packet))
    }
}

// Whether there is one of a CID.
pub fn has(sources: &[Source], cid: &[u8; 16]) -> bool
    ensures { result ≡ list_any (spec.is_of cid.now) sources.now }
{
    sources.iter().any(|source| source.is_of(cid))
}

// Whether there is one of the same CID, name and priority.
pub fn has_alike(sources: &[Source], source: &Source) -> bool
    ensures { result ≡ list_any (spec.is_alike source.now) sources.now }
{
    sources.iter().any(|other| source.is_alike(other))
}

// How many packets of a source never came, from the one before to this one.
pub fn packets_missed(before: &[Source], source: &Source) -> u8
    ensures { result ≡ spec.packets_missed before.now source.now }
{
    for other in before {
        if other.is_of(&source.cid) {
            return between(other.number, source.number);
        }
    }
    0
}

// How many numbers are between two, as numbers of a byte.
fn between(a: u8, b: u8) -> u8
    ensures { result ≡ spec.between a b }
{
    b.wrapping_sub(a).saturating_sub(1)
}

// The greatest priority, 0 where there is no source.
fn top(sources: &[Source]) -> u8
    ensures { result ≡ greatest (map (λ s. s.priority) sources.now) }
{
    let mut top = 0;
    for source in sources {
        top = source.priority.max(top);
    }
    top
}

// Whether a source is of the greatest priority.
pub fn is_leading(sources: &[Source], source: &Source) -> bool
    ensures { result ≡ spec.is_leading sources.now source.now }
{
    source.priority == top(sources)
}

// Whether there is one of a source's CID that leads.
pub fn was_leading(before: &[Source], source: &Source) -> bool
    ensures { result ≡ spec.was_leading before.now source.now }
{
    let top = top(before);
    before
        .iter()
        .any(|other| other.is_of(&source.cid) && other.priority == top)
}
