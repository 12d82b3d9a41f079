// One value of a reading, put into the area and into its slot.
ghost use Rattle.std.specs.Prelude.{◌≤◌};
ghost use Rattle.reading.specs.inside.value.{InRecord, value_of};
ghost use Rattle.reading.specs.inside.put.{PutRoom, PutAs};

use super::positions::Found;
use super::value;
use record::slots::Slot;

// The value of a field that was found goes into slot k and into the area from the place `to` on; hands back the place
// after it.
pub fn put(
    slots: &mut [u32],
    k: usize,
    area: &mut [u8],
    to: usize,
    bytes: &[u8],
    found: Found,
) -> usize
    requires inside { InRecord bytes.now found }
    requires put_room { PutRoom (value_of bytes.now found) slots.old k area.old to }
    ensures { PutAs (value_of bytes.now found) found.at slots.old k area.old to result slots.new area.new }
{
    let loaded = value::load(area, to, bytes, found);
    let slot = Slot {
        kind: loaded.kind,
        start: to as u32,
        len: loaded.items as u32,
        position: found.at as u32,
    };
    slot_table::set_slot(slots, k, slot);
    to + loaded.size
}
