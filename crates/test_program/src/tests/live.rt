ghost use Rattle.std.specs.Prelude.{IfOk};
ghost use Rattle.cmd_live.specs.Stands.{IsPlayable};

mod again;
mod booth;
mod devices_fail;
mod follow;
mod long;
mod rows;

use booth::{BoothFaults, Coming, MemoryBooth};
use cmd_faults::RunFault;
use cmd_live::Night;
use devices::memory::{Faults, MemoryLink};
use fade_core::{Fader, StepFader};
use sacn_packet::SourceName;
use sacn_source::Identity;
use std::alloc::Global;
use std::process::Abort;

// Two cues, of which the second follows in a tenth of a second, a submaster at half, and dimmers 1
// and 2.
const SMALL: &[u8] = b"IDENT 3:0\nCUE 1\nFOLLOWON .1\nCHAN 1@FL\nCUE 2.5\nCHAN 2@FL\n\
SUB 1\nCHAN 1@50\nPATCH 1 1<1@FL 2<2@FL\nENDDATA\n";

// What a night is given beside its input.
#[derive(Clone, Copy)]
struct Setting<'a> {
    show: &'a [u8],
    base: u16,
    booth: BoothFaults,
    link: Faults,
}

// The small show and base 1, and nothing fails.
fn plain() -> Setting<'static> {
    let none = Faults::new(0, 0);
    Setting {
        show: SMALL,
        base: 1,
        booth: BoothFaults {
            moment: none,
            wait: none,
            keep: none,
            show: none,
        },
        link: none,
    }
}

// A night, and what it left.
#[derive(Drop)]
struct Run<'a> {
    answer: Result<(), RunFault>,
    booth: MemoryBooth<'a>,
    link: MemoryLink,
}

impl<'a> Run<'a> {
    fn of(rt: &impl Abort, alloc: Global, setting: &Setting<'_>, coming: &'a [Coming<'a>]) -> Self {
        let booth = MemoryBooth::new(alloc, coming, setting.booth);
        Run::over(rt, alloc, setting, booth)
    }

    // A night over this booth.
    fn over(
        rt: &impl Abort,
        alloc: Global,
        setting: &Setting<'_>,
        mut booth: MemoryBooth<'a>,
    ) -> Self {
        let mut link = MemoryLink::new(alloc, setting.link.passing, setting.link.failing);
        let answer = match new_night::<StepFader>(alloc, setting, identity(rt)) {
            Ok(mut night) => night.live(0, &mut booth, &mut link),
            Err(fault) => Err(fault),
        };
        Run {
            answer,
            booth,
            link,
        }
    }

    // It answered so, recorded these lines and showed those, and offered so many packets.
    fn is(&self, answer: Result<(), RunFault>, kept: &[u8], shown: &[u8], packets: usize) -> bool {
        self.answer == answer
            && self.booth.kept.as_slice() == kept
            && self.booth.shown.as_slice() == shown
            && !self.booth.full
            && self.link.sends.len() == packets
    }

    // Slot 1 of a packet.
    fn slot(&self, place: usize) -> Option<u8> {
        let send = self.link.sends.get(place)?;
        send.bytes.get(126).copied()
    }
}

fn new_night<F: Fader>(
    alloc: Global,
    setting: &Setting<'_>,
    source: Identity,
) -> Result<Night<F>, RunFault>
    ensures { IfOk result (λ night. IsPlayable F.stands_for night) }
{
    Night::open(alloc, setting.show, source, setting.base)
}

fn identity(rt: &impl Abort) -> Identity {
    let cid = *b"\xc0\xff\xee\0\0\0\x40\0\x80\0\0\0\0\0\xe1\x31";
    let name = SourceName::new("cueplayer").expect(rt, "a name");
    Identity::new(cid, name, 100).expect(rt, "a priority")
}
