ghost use Rattle.std.specs.Prelude.{◌≡◌, ◌≤◌, ◌<◌, not, ◌&&◌, nat_lt, if◌then◌else◌, length};
ghost use Rattle.std.specs.Prelude.{Ok, Err};
ghost use Rattle.std.specs.Prelude.{IfOk};
ghost use Rattle.std.specs.List.{position, position_or_len};
ghost use Rattle.std.specs.Result.{result_err};
ghost use Rattle.arrayvec.specs.ArrayVec.{array_vec_len};
ghost use Rattle.sacn_receiver.specs.declared.answer.Ignored.TheVariants.{SourcesFull};
ghost use Rattle.sacn_receiver.specs.Source as source;
ghost use Rattle.sacn_receiver.specs.Taking.{accepted_entry, source_refusal};
ghost use Rattle.sacn_receiver.specs.Records.{entries, kept_entry};
ghost use Rattle.sacn_receiver.specs.Places.{AreDistinct, IsPlace, put};

use crate::answer::Ignored;
use crate::receiver::SOURCES;
use crate::record::Record;
use arrayvec::ArrayVec;
use sacn_packet::DataPacket;

// The place of a source's record.
fn known_place(records: &[Record], cid: &[u8; 16]) -> Option<usize>
    ensures { result ≡ position (λ r. source.same_cid cid.now (kept_entry r)) records.now }
{
    records.iter().position(|record| *cid == record.cid)
}

// A place for a new source: that of the first record that is gone, else behind all.
#[tactic(auto, using(crate::proofs::Taking::or_behind))]
fn free_place(records: &[Record], moment: u64) -> Result<usize, Ignored>
    ensures { let place = position_or_len (λ r. not (source.is_there moment (kept_entry r)))
        records.now in result ≡ (if nat_lt place 4 then Ok place else Err SourcesFull) }
{
    let place = gone_place(records, moment).unwrap_or(records.len());
    if place < SOURCES {
        Ok(place)
    } else {
        Err(Ignored::SourcesFull)
    }
}

// The place of the first record that is gone.
fn gone_place(records: &[Record], moment: u64) -> Option<usize>
    ensures { result ≡ position (λ r. not (source.is_there moment (kept_entry r))) records.now }
{
    records.iter().position(|record| !record.is_there(moment))
}

// Whether number b comes after number a.
fn is_after(a: u8, b: u8) -> bool
    ensures { result ≡ source.is_after a b }
{
    (1..=236).contains(&b.wrapping_sub(a))
}

// Whether what is kept is there, and this number does not come after its number.
fn is_overtaken(kept: &Record, moment: u64, number: u8) -> bool
    ensures { result ≡ (source.is_there moment (kept_entry kept.now)
        && not (source.is_after kept.now.number number)) }
{
    kept.is_there(moment) && !is_after(kept.number, number)
}

// The place for a packet of this source with this number.
pub(crate) fn place_for(
    records: &[Record],
    moment: u64,
    cid: &[u8; 16],
    number: u8,
) -> Result<usize, Ignored>
    requires apart { AreDistinct (entries records.now) }
    requires room { length records.now ≤ 4 }
    ensures place { IfOk result (λ place. IsPlace (entries records.now) moment cid.now place) }
    ensures refused { result_err result
        ≡ source_refusal 4 (entries records.now) moment cid.now number }
{
    match known_place(records, cid) {
        Some(place) => {
            if is_overtaken(&records[place], moment, number) {
                return Err(Ignored::OutOfSequence);
            }
            Ok(place)
        }
        None => free_place(records, moment),
    }
}

// Keeps a packet at a place, or behind all.
pub(crate) fn keep_at(
    records: &mut ArrayVec<Record, SOURCES>,
    place: usize,
    moment: u64,
    packet: &DataPacket,
)
    requires within { place ≤ array_vec_len records.old }
    requires room { place < 4 }
    requires slots { length packet.now.slots ≤ 512 }
    ensures { entries records.new.items
        ≡ put (entries records.old.items) place (accepted_entry moment packet.now) }
{
    if let Some(record) = records.get_mut(place) {
        record.keep(moment, packet);
    } else {
        let mut record = Record::default();
        record.keep(moment, packet);
        records.push(record);
    }
}
