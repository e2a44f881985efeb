ghost use Rattle.std.specs.Prelude.{◌≡◌, ℕ, ◌<◌, count_by, slice_index};
ghost use Rattle.sacn_receiver.specs.Records.{kept_entry, is_live_at, lights_at, top_at};
ghost use Rattle.sacn_receiver.specs.Shown.{merged_slot};

use crate::record::Record;
use patch_core::max_into;
use sacn_packet::Slots;

// How many records are live.
pub(crate) fn count_live(records: &[Record], moment: u64) -> usize
    ensures { result ≡ count_by (λ r. is_live_at moment (kept_entry r)) records.now }
{
    records
        .iter()
        .filter(|record| record.is_live(moment))
        .count()
}

// Writes the frame of the live records: of those of the greatest priority, the greatest of each
// slot.
#[tactic(auto, using(crate::proofs::Merging::lit_leads, crate::proofs::Merging::lit_other))]
pub(crate) fn merge(records: &[Record], moment: u64, out: &mut Slots)
    ensures { (s : ℕ) → s < 512 → slice_index out.new s
        ≡ merged_slot (lights_at moment records.now) s }
{
    let top = top_priority(records, moment);
    out.fill(0);
    for record in records {
        if record.leads(moment, top) {
            max_into(out, &record.slots);
        }
    }
}

// The greatest priority of the live records, 0 where none is live.
#[tactic(auto, using(crate::proofs::Merging::top_live, crate::proofs::Merging::top_dark))]
fn top_priority(records: &[Record], moment: u64) -> u8
    ensures { result ≡ top_at moment records.now }
{
    let mut top = 0;
    for record in records {
        if record.is_live(moment) {
            top = record.priority.max(top);
        }
    }
    top
}
