mod devices_fail;
mod rows;

use cmd_faults::RunFault;
use cmd_play::play;
use devices::memory::{MemoryFeed, MemoryLink, MemoryOutput};
use fade_core::PlainFader;
use sacn_packet::SourceName;
use sacn_source::Identity;
use std::alloc::Global;
use std::process::Abort;

// Two cues, a submaster at half, and dimmers 1 and 2.
const SMALL: &[u8] = b"IDENT 3:0\nCUE 1\nUP 5\nCHAN 1@FL\nCUE 2\nUP 2\nDOWN 4\nCHAN 2@FL\n\
SUB 1\nCHAN 1@50\nPATCH 1 1<1@FL 2<2@FL\nENDDATA\n";

// Dimmers of two universes.
const WIDE: &[u8] = b"PATCH 1 1<1@FL 1<513@FL\n";

const FADE: &[u8] = b"0 go\n0 tick\n2500 tick\n2525 tick\n5000 tick\n";

const FADE_TEXT: &[u8] = b"0 ok\n0 live 1:s0\n2500 live 1:s1\n2525 live 1:s2\n5000 live 1:s3\n";

// What a play is given beside its input.
#[derive(Clone, Copy)]
struct Setting<'a> {
    show: &'a [u8],
    base: u16,
    // So many bytes of the input come by a read.
    step: usize,
    // Of each device the calls that pass before one fails; more than there are, where none does.
    read: u64,
    send: u64,
    write: u64,
}

const NONE: u64 = 1_000_000;

// The small show and base 1, and nothing fails.
const PLAIN: Setting<'static> = Setting {
    show: SMALL,
    base: 1,
    step: 4096,
    read: NONE,
    send: NONE,
    write: NONE,
};

// A play, and what it left.
#[derive(Drop)]
struct Run {
    answer: Result<(), RunFault>,
    link: MemoryLink,
    out: MemoryOutput,
}

impl Run {
    fn of(rt: &impl Abort, alloc: Global, setting: &Setting<'_>, input: &[u8]) -> Run {
        assert!(rt; setting.step > 0);
        let mut feed = MemoryFeed::new(input, setting.step, setting.read, 1);
        let mut link = MemoryLink::new(alloc, setting.send, 1);
        let mut out = MemoryOutput::new(alloc, setting.write, 1);
        let answer = play::<PlainFader, _, _, _>(
            alloc,
            setting.show,
            identity(rt),
            setting.base,
            &mut feed,
            &mut link,
            &mut out,
        );
        Run { answer, link, out }
    }

    // It answered so, printed this, and offered so many packets.
    fn is(&self, answer: Result<(), RunFault>, text: &[u8], packets: usize) -> bool {
        self.answer == answer
            && self.out.bytes.as_slice() == text
            && !self.out.full
            && self.link.sends.len() == packets
    }

    // Slot 1 of a packet.
    fn slot(&self, place: usize) -> Option<u8> {
        let send = self.link.sends.get(place)?;
        send.bytes.get(126).copied()
    }

    // The universe and sequence number of a packet, and whether its send failed.
    fn packet(&self, place: usize) -> Option<(u16, u8, bool)> {
        let send = self.link.sends.get(place)?;
        let sequence = send.bytes.get(111).copied()?;
        Some((send.universe, sequence, send.failed))
    }
}

fn identity(rt: &impl Abort) -> Identity {
    let cid = *b"\xc0\xff\xee\0\0\0\x40\0\x80\0\0\0\0\0\xe1\x31";
    let name = SourceName::new("cueplayer").expect(rt, "a name");
    Identity::new(cid, name, 100).expect(rt, "a priority")
}

// The input of a play, its answer, what it prints, and how many packets it offers.
type Row<'a> = (&'a [u8], Result<(), RunFault>, &'a [u8], usize);

fn holds(rt: &impl Abort, alloc: Global, setting: &Setting<'_>, row: &Row<'_>) -> bool {
    let (input, answer, text, packets) = *row;
    Run::of(rt, alloc, setting, input).is(answer, text, packets)
}

fn play_each(rt: &impl Abort, alloc: Global, setting: &Setting<'_>, rows: &[Row<'_>]) {
    for (place, row) in rows.iter().enumerate() {
        assert!(rt; holds(rt, alloc, setting, row), "row {place}");
    }
}
