// Slots in a run of numbers: reading one, setting one, and whether its value lies in the area.
#![tactic(auto)]

ghost use Rattle.std.specs.Prelude.{◌≡◌, ◌+◌, ◌*◌, ◌≤◌, ◌<◌, length};
ghost use Rattle.record.specs.Table.{slot_width, is_integers, item_size};
ghost use Rattle.record.specs.Slots.{slot_at, is_inside};
ghost use Rattle.record.specs.inside.Slots.{slot_set};

use record::slots::Slot;

// The tests of what is lent, and the bytes that items fill.
pub mod sizes;

// Reads slot number k.
pub fn slot_at(slots: &[u32], k: usize) -> Slot
    requires { slot_width * k + slot_width ≤ length slots.now }
    ensures { result ≡ slot_at slots.now k }
{
    let at = record::SLOT_WIDTH * k;
    Slot {
        kind: slots[at],
        start: slots[at + 1],
        len: slots[at + 2],
        position: slots[at + 3],
    }
}

// Sets slot number k.
pub fn set_slot(slots: &mut [u32], k: usize, a: Slot)
    requires { slot_width * k + slot_width ≤ length slots.old }
    ensures { slots.new ≡ slot_set slots.old k a }
{
    // Number by number: an array of the four, copied, costs 13 instructions more.
    let at = record::SLOT_WIDTH * k;
    slots[at] = a.kind;
    slots[at + 1] = a.start;
    slots[at + 2] = a.len;
    slots[at + 3] = a.position;
}

// The bytes that an item of a kind takes in the area.
pub fn item_size(kind: u32) -> usize
    ensures { result ≡ item_size kind }
{
    if kind == record::slots::STRING {
        1
    } else {
        record::INTEGER_SIZE
    }
}

// Whether a kind is one of integers.
pub fn is_integers(kind: u32) -> bool
    ensures { result ≡ is_integers kind }
{
    kind == record::slots::SIGNED || kind == record::slots::UNSIGNED
}

// The kind is known, and the value lies inside an area of `area` bytes; else the slot is refused with 7.
pub fn is_inside(a: Slot, area: usize) -> bool
    ensures { result ≡ is_inside a area }
{
    a.kind <= record::slots::MAX_KIND
        && a.start as usize + a.len as usize * item_size(a.kind) <= area
}
