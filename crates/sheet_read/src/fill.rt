// The first entries of a sheet put into a table and its area.
ghost use Rattle.std.specs.Prelude.{◌≡◌, true, ◌/◌, ◌≤◌, length, eqb, if◌then◌else◌};
ghost use Rattle.record.specs.Table.{max_area, item_size, no_position};
ghost use Rattle.sheet.specs.Entries.{begins_entry, entry_in};
ghost use Rattle.sheet.specs.Sheet.{header_size, entries_at};
ghost use Rattle.sheet.specs.inside.Steps.{width};
ghost use Rattle.sheet_read.specs.inside.check.{front_of};
ghost use Rattle.sheet_read.specs.inside.fill.{put_front, Room, PutRoom, PutAs};

use record::Answer;
use record::slots::{NO_POSITION, Slot, UNSET};
use sheet::lengths::Version;

// The slot of a value of `size` bytes that is put at a place.
fn slot_for(kind: u8, size: usize, place: usize) -> Slot
    requires { (size ≤ max_area) × (place ≤ max_area) }
    ensures { result ≡ record {
      kind = kind;
      start = if eqb kind 0 then 0 else place;
      len = size / item_size kind;
      position = no_position;
    } }
{
    let kind = u32::from(kind);
    Slot {
        kind,
        start: if kind == UNSET { 0 } else { place as u32 },
        len: (size / slot_table::item_size(kind)) as u32,
        position: NO_POSITION,
    }
}

// The entry that bytes begin with goes into slot k and into the area from the place `to` on; hands back the bytes of
// its value.
#[tactic(auto, using(sheet::proofs::Entries::begins))]
fn put(slots: &mut [u32], k: usize, area: &mut [u8], to: usize, rest: &[u8], v: Version) -> usize
    requires entry { begins_entry (width v) rest.now ≡ true }
    requires put_room { PutRoom (entry_in (width v) rest.now) slots.old k area.old to }
    ensures { PutAs (entry_in (width v) rest.now) slots.old k area.old to result slots.new area.new }
{
    let size = v.length(rest) - 1;
    slot_table::set_slot(slots, k, slot_for(rest[v.width()], size, to));
    byte_runs::copy(area, to, rest, v.header(), size);
    size
}

// The second pass, over as many entries as the first has found: they are not checked again. Table, area and mark come
// one by one, as they are lent to `read`: a struct would hold them for this one call.
pub fn fill(
    sheet: &[u8],
    v: Version,
    count: usize,
    slots: &mut [u32],
    area: &mut [u8],
    mark: usize,
) -> Answer
    requires entries { (header_size (width v) ≤ length sheet.now)
        × (count ≤ length (entries_at (width v) sheet.now)) }
    requires room { Room (front_of (width v) count sheet.now) slots.old area.old mark }
    ensures { record { answer = result; slots = slots.new; area = area.new }
        ≡ put_front (width v) count sheet.now slots.old area.old mark }
{
    let mut at = v.header();
    let mut place = mark;
    for set in 0..count {
        let size = put(slots, set, area, place, &sheet[at..], v);
        place += size;
        at += v.header() + size;
    }
    Answer::accepted(count as u32, place as u32)
}
