// Slot records: a slice of them taken apart into numbers, and put together out of numbers,
// for the calls of `pack` and `read`.
#![tactic(auto)]

ghost use Rattle.std.specs.Prelude.{◌≡◌, ◌++◌, ◌+◌, ◌*◌, ◌≤◌, length, take, drop};
ghost use Rattle.record.specs.Bytes.{store_at};
ghost use Rattle.record.specs.Table.{slot_width, max_slots};
ghost use Rattle.slots.specs.Slots.{max_numbers, slots_numbers, slots_from, slot_from, numbers_of, taken};

use record::{MAX_SLOTS, SLOT_WIDTH};

// Packing: `pack_slots`.
pub mod pack;
// Reading: `read_slots`.
pub mod read;

// A slot as a caller lends it: 16 bytes, four numbers of 32 bits, named as in the C header. (`record::slots::Slot` has
// the same four; it is read out of a run of numbers and never lent.)
#[derive(Clone, Copy)]
pub struct SlotRecord {
    pub kind: u32,
    pub start: u32,
    pub length: u32,
    pub position: u32,
}

// The rows of a table by value, for callers that the borrow checker covers: as many as the most slots and one more. The
// first of them are lent, as many as the caller says.
pub const ROWS: usize = MAX_SLOTS + 1;

// The slot that the numbers at a place make: by its place, and named as in the C header.
fn slot_from(numbers: &[u32], at: usize) -> SlotRecord
    requires { at + slot_width ≤ length numbers.now }
    ensures { result ≡ slot_from numbers.now at }
{
    SlotRecord {
        kind: numbers[at],
        start: numbers[at + 1],
        length: numbers[at + 2],
        position: numbers[at + 3],
    }
}

// The numbers of a slot, put at a place.
fn put_slot(numbers: &mut [u32], at: usize, slot: SlotRecord)
    requires { at + slot_width ≤ length numbers.old }
    ensures { numbers.new ≡ store_at numbers.old at (numbers_of slot) }
{
    numbers[at..at + SLOT_WIDTH].copy_from_slice(&[
        slot.kind,
        slot.start,
        slot.length,
        slot.position,
    ]);
}

// How many slots are taken apart: all of them, and none where there are more than a table may have.
fn taken(count: usize) -> usize
    ensures value { result ≡ taken count }
    ensures within { (result ≤ count) × (result ≤ max_slots) }
{
    if count <= MAX_SLOTS { count } else { 0 }
}

// Takes the slots apart into numbers, and tells how many.
pub fn load(slots: &[SlotRecord], numbers: &mut [u32]) -> usize
    requires { max_numbers ≤ length numbers.old }
    ensures within { (result ≤ length slots.now) × (result ≤ max_slots) }
    ensures numbers { (result ≡ taken (length slots.now))
        × (numbers.new ≡ slots_numbers (take result slots.now) ++ drop (result * slot_width) numbers.old) }
{
    let count = taken(slots.len());
    // By index: of what is written through `chunks_exact_mut` and a zip, nothing is known after the loop.
    for i in 0..count {
        put_slot(numbers, i * SLOT_WIDTH, slots[i]);
    }
    count
}

// Puts the first `count` slots together out of their numbers.
pub fn save(slots: &mut [SlotRecord], numbers: &[u32], count: usize)
    requires { (count ≤ length slots.old) × (count * slot_width ≤ length numbers.now) }
    ensures { slots.new ≡ slots_from (take (count * slot_width) numbers.now) ++ drop count slots.old }
{
    // By index: of what is written through `iter_mut` and a zip, nothing is known after the loop.
    for i in 0..count {
        slots[i] = slot_from(numbers, i * SLOT_WIDTH);
    }
}
