ghost use Rattle.std.specs.Prelude.{◌≡◌, ◌<◌, All, IfOk, codes, string_bytes};
ghost use Rattle.sacn_packet.specs.Wire.{IsData};
ghost use Rattle.cmd_show.specs.Texts.{check_text, counts_line, look_fields, IsLinesOf};
ghost use Rattle.cmd_show.specs.Texts.{IsLookText};

use sacn_packet::{Header, SourceName, encode};
use show_core::{Counts, Cue, Frame, Show};
use show_reader::Loaded;
use std::alloc::{AllocError, Global};

/// The line that `check` prints.
pub(crate) fn check_text(alloc: Global, loaded: &Loaded) -> Result<String, AllocError>
    ensures { IfOk result (λ text. string_bytes text
        ≡ check_text loaded.now.lines loaded.now.skipped loaded.now.show) }
{
    counts_line(alloc, loaded.lines, loaded.show.counts(), loaded.skipped)
}

fn counts_line(
    alloc: Global,
    lines: u32,
    counts: Counts,
    skipped: u32,
) -> Result<String, AllocError>
    ensures { IfOk result (λ text. string_bytes text
        ≡ counts_line lines counts.cues counts.subs counts.groups counts.dimmers skipped) }
{
    let Counts {
        cues,
        subs,
        groups,
        dimmers,
    } = counts;
    format!(in alloc;
        "lines {lines} cues {cues} subs {subs} groups {groups} dimmers {dimmers} \
        skipped {skipped}\n"
    )
}

/// The lines that `look` prints: the packets of the cue, in hex.
pub(crate) fn look_text(
    alloc: Global,
    show: &Show,
    look: &Cue<'_>,
    cid: [u8; 16],
) -> Result<Vec<u8>, AllocError>
    ensures { IfOk result (λ text.
        IsLookText look.now.levels show.now.patch cid text.items) }
{
    look_lines(alloc, show, look, cid, show.universes().as_slice())
}

fn look_lines(
    alloc: Global,
    show: &Show,
    look: &Cue<'_>,
    cid: [u8; 16],
    ordinals: &[u16],
) -> Result<Vec<u8>, AllocError>
    requires { All (λ ordinal. ordinal < 16) ordinals.now }
    ensures { IfOk result (λ text.
        IsLinesOf look.now.levels show.now.patch cid ordinals.now text.items) }
{
    let mut text = Vec::new(alloc);
    for ordinal in ordinals {
        let packet = look_packet(cid, *ordinal, &show.cue_slots(look, *ordinal));
        let digits = hex::encode(alloc, packet)?;
        text.extend_from_slice(digits.as_bytes())?;
        text.push(b'\n')?;
    }
    Ok(text)
}

fn look_packet(cid: [u8; 16], ordinal: u16, slots: &Frame) -> [u8; 638]
    requires { ordinal < 16 }
    ensures { IsData result (look_fields cid ordinal) slots.now }
{
    let header = Header {
        cid,
        name: source_name(),
        priority: 100,
        sequence: 0,
        options: 0,
        universe: ordinal + 1,
    };
    let mut packet = [0; 638];
    encode(&header, slots, &mut packet);
    packet
}

fn source_name() -> SourceName
    ensures { result ≡ codes "cueplayer" }
{
    SourceName::new("cueplayer").unwrap()
}
