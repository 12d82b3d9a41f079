// What a rescue (crate rescue) does once sizes, version and slots are found good: what is whole at the front of a
// damaged sheet goes into the table, and the slots after it are cleared. The first pass measures what is kept, the
// second writes. So a refusal writes nothing.
ghost use Rattle.std.specs.Prelude.{◌≡◌, ◌*◌, ◌≤◌};
ghost use Rattle.record.specs.Bytes.{store_at};
ghost use Rattle.record.specs.Table.{slot_width, max_slots};
ghost use Rattle.sheet.specs.Sheet.{version_of, max_sheet};
ghost use Rattle.sheet.specs.inside.Steps.{byte_of};
ghost use Rattle.rescue.specs.Rescue.{saved, rescue_refused, rescue};
ghost use Rattle.rescue.specs.inside.Steps.{RescueReady, cleared_numbers, Clearable};

use layout::Refusal;
use record::Answer;
use record::slots::{NO_POSITION, Slot, UNSET};
use sheet::lengths::Version;

// What a rescue answers, as the definition of the call names it, and the words of its reply: 0, entries kept, slots cleared and bytes dropped; or the number of a
// refusal, its place, 0 and 0.
#[derive(Clone, Copy)]
pub struct Rescued {
    pub number: u32,
    pub first: u32,
    pub second: u32,
    pub third: u32,
}

impl Rescued {
    pub fn refused(why: Refusal) -> Rescued
        ensures { result ≡ rescue_refused why 0 }
    {
        Rescued {
            number: why.number(),
            first: 0,
            second: 0,
            third: 0,
        }
    }

    fn saved(kept: usize, cleared: usize, dropped: usize) -> Rescued
        requires { (kept ≤ max_slots) × (cleared ≤ max_slots) × (dropped ≤ max_sheet) }
        ensures { result ≡ saved kept cleared dropped }
    {
        Rescued {
            number: 0,
            first: kept as u32,
            second: cleared as u32,
            third: dropped as u32,
        }
    }
}

// Clears n slots from number k on.
fn clear(slots: &mut [u32], k: usize, n: usize)
    requires { Clearable slots.old k n }
    ensures { slots.new ≡ store_at slots.old (slot_width * k) (cleared_numbers n) }
{
    let cleared = Slot {
        kind: UNSET,
        start: 0,
        len: 0,
        position: NO_POSITION,
    };
    for i in 0..n {
        slot_table::set_slot(slots, k + i, cleared);
    }
}

// Rescues a sheet, whatever length its header states. Of one without a whole header nothing is kept, and all is
// dropped.
pub fn rescue_entries(
    sheet: &[u8],
    v: Version,
    legs: usize,
    slots: &mut [u32],
    area: &mut [u8],
    mark: usize,
) -> Rescued
    requires { RescueReady sheet.now legs slots.old area.old mark × (byte_of v ≡ version_of sheet.now) }
    ensures { record { answer = result; slots = slots.new; area = area.new }
        ≡ rescue sheet.now legs slots.old area.old mark }
{
    if sheet.len() < v.header() {
        clear(slots, 0, legs);
        return Rescued::saved(0, legs, sheet.len());
    }
    let x = sheet_read::check::measure(sheet, v, legs);
    if area.len() - mark < x.values {
        return Rescued::refused(Refusal::NoRoom);
    }
    sheet_read::fill::fill(sheet, v, x.entries, slots, area, mark);
    clear(slots, x.entries, legs - x.entries);
    Rescued::saved(x.entries, legs - x.entries, sheet.len() - x.end)
}
