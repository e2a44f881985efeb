ghost use Rattle.std.specs.Prelude.{◌≡◌, ◌<◌, ◌++◌, OnOk};
ghost use Rattle.sacn_receiver.specs.declared.answer.Ignored.TheVariants.{AltStart};
ghost use Rattle.cmd_listen.specs.Ignored as spec;
ghost use Rattle.cmd_listen.specs.Universe.{counts_after, told_counts};

use crate::instant::Instant;
use crate::text::{Head, push_head};
use itoa::Buffer;
use sacn_packet::{Unreadable, parse};
use sacn_receiver::Ignored;
use std::alloc::AllocError;

/// How many datagrams were ignored, for each reason.
pub type Counts = [u32; 19];

/// None was ignored.
pub const NONE: Counts = [0; 19];

/// The reason of a line whose moment falls.
pub const BACKWARDS: usize = 0;

// The ACN packet identifier (root layer).
const IDENTIFIER: [u8; 12] = *b"ASC-E1.17\0\0\0";

// The START code of priorities of single slots.
const PER_ADDRESS_PRIORITY: u8 = 0xdd;

fn fault_place(fault: Unreadable) -> usize
    ensures place { result ≡ spec.fault_place fault }
    ensures within { result < 19 }
{
    match fault {
        Unreadable::Short => 1,
        Unreadable::Preamble => 2,
        Unreadable::Identifier => 3,
        Unreadable::RootVector => 4,
        Unreadable::Length => 5,
        Unreadable::FramingVector => 6,
        Unreadable::Priority => 7,
        Unreadable::Universe => 8,
        Unreadable::Dmp => 9,
        Unreadable::Count => 10,
    }
}

// The place of the reason for which a receiver ignores a datagram.
pub fn ignored_place(datagram: &[u8], reason: Ignored) -> usize
    ensures place { result ≡ spec.ignored_place datagram.now reason }
    ensures within { result < 19 }
{
    match reason {
        Ignored::Backwards => 0,
        Ignored::Unreadable(fault) => fault_place(fault),
        Ignored::OtherUniverse => 11,
        Ignored::Preview => 12,
        Ignored::AltStart => alternate_place(datagram),
        Ignored::OutOfSequence => 14,
        Ignored::SourcesFull => 15,
    }
}

fn alternate_place(datagram: &[u8]) -> usize
    ensures place { result ≡ spec.ignored_place datagram.now AltStart }
    ensures within { result < 19 }
{
    match datagram.get(125) {
        Some(&PER_ADDRESS_PRIORITY) => 16,
        _ => 13,
    }
}

// Whether it is an extended packet with this framing vector.
fn is_extended(datagram: &[u8], vector: u8) -> bool
    ensures { result ≡ spec.is_extended datagram.now vector }
{
    datagram.len() >= 44
        && datagram[4..16] == IDENTIFIER[..]
        && datagram[18..22] == [0, 0, 0, 8][..]
        && datagram[40..44] == [0, 0, 0, vector][..]
}

// The place of the reason for which no receiver is handed a datagram.
pub fn stray_place(datagram: &[u8]) -> usize
    ensures place { result ≡ spec.stray_place datagram.now }
    ensures within { result < 19 }
{
    if is_extended(datagram, 2) {
        return 17;
    }
    if is_extended(datagram, 1) {
        return 18;
    }
    match parse(datagram) {
        Ok(_) => 11,
        Err(fault) => fault_place(fault),
    }
}

// Counts one more.
pub fn count(counts: &mut Counts, place: usize)
    requires { place < 19 }
    ensures { counts.new ≡ spec.with_one_more place counts.old }
{
    counts[place] = counts[place].saturating_add(1);
}

// Pushes a line for each count that is not 0.
pub fn push_counts(text: &mut Vec<u8>, head: Head, counts: &Counts) -> Result<(), AllocError>
    ensures { OnOk result (text.new.items ≡ text.old.items ++ spec.counts_text head counts.now) }
{
    for (place, count) in counts.iter().enumerate() {
        push_count(text, head, place, *count)?;
    }
    Ok(())
}

fn push_count(text: &mut Vec<u8>, head: Head, place: usize, count: u32) -> Result<(), AllocError>
    requires { place < 19 }
    ensures { OnOk result (text.new.items
        ≡ text.old.items ++ spec.count_line head (place, count)) }
{
    if count == 0 {
        return Ok(());
    }
    push_head(text, head)?;
    text.extend_from_slice(b"ignored ")?;
    text.extend_from_slice(name_at(place))?;
    text.extend_from_slice(b" ")?;
    text.extend_from_slice(Buffer::new().format(count).as_bytes())?;
    text.extend_from_slice(b"\n")
}

fn name_at(place: usize) -> &'static [u8]
    requires { place < 19 }
    ensures { result.now ≡ spec.name_at place }
{
    match place {
        0 => b"Backwards",
        1 => b"Unreadable Short",
        2 => b"Unreadable Preamble",
        3 => b"Unreadable Identifier",
        4 => b"Unreadable RootVector",
        5 => b"Unreadable Length",
        6 => b"Unreadable FramingVector",
        7 => b"Unreadable Priority",
        8 => b"Unreadable Universe",
        9 => b"Unreadable Dmp",
        10 => b"Unreadable Count",
        11 => b"OtherUniverse",
        12 => b"Preview",
        13 => b"AltStart",
        14 => b"OutOfSequence",
        15 => b"SourcesFull",
        16 => b"PerAddressPriority",
        17 => b"Discovery",
        _ => b"Synchronization",
    }
}

// Tells of the counts where it is time, and begins them anew.
pub fn tell_counts(
    text: &mut Vec<u8>,
    instant: Instant,
    universe: u16,
    counts: &mut Counts,
) -> Result<(), AllocError>
    ensures { OnOk result ((text.new.items
        ≡ text.old.items ++ told_counts instant universe counts.old)
        × (counts.new ≡ counts_after instant counts.old)) }
{
    if !instant.tells {
        return Ok(());
    }
    let head = Head {
        moment: instant.moment,
        universe,
    };
    push_counts(text, head, counts)?;
    *counts = NONE;
    Ok(())
}
