// Whether a reading is refused, and how: the answer of `reader::read`, decided before anything is written, and its
// tests by themselves. Nothing here writes.
ghost use Rattle.std.specs.Prelude.{◌≡◌, ◌≤◌, length};
ghost use Rattle.layout.specs.Layout.{max_layout};
ghost use Rattle.record.specs.Table.{max_record, value_bytes};
ghost use Rattle.reading.specs.inside.Run.{values_of};
ghost use Rattle.reader.specs.inside.Sizes.{read_lent_fits, surely_fits};
ghost use Rattle.reader.specs.inside.Checks.{read_checked, fitting};

use layout::{Refusal, Refused, parser};
use record::Answer;
use slot_table::sizes;

// What is lent keeps to its size, the slots are whole, and the mark lies in the area; else number 1 (the table of
// numbers is in include/curlew.h).
pub fn sizes_fit(layout: usize, slots: usize, bytes: usize, area: usize, mark: usize) -> bool
    ensures { result ≡ read_lent_fits layout slots bytes area mark }
{
    sizes::lengths_fit(layout, slots, bytes, area) && mark <= area
}

// Numbers 5 and 11 for the fields of the codes: enough slots for the `taken` that take one, and room for their values.
#[tactic(auto, unfolding(crate::specs::inside::Checks::fitting))]
pub fn fits(
    codes: &[u32],
    taken: usize,
    bytes: &[u8],
    slots: usize,
    room: usize,
) -> Result<(), Refused>
    requires { (length codes.now ≤ max_layout) × (length bytes.now ≤ max_record) }
    ensures { result
        ≡ fitting slots taken room (length (value_bytes (values_of (length codes.now) codes.now bytes.now))) }
{
    if slots / record::SLOT_WIDTH < taken {
        return Err(Refusal::BadSlots.at(0));
    }
    let size = reading::measure::measure(codes, bytes);
    if room < size {
        return Err(Refusal::NoRoom.at(0));
    }
    Ok(())
}

// Whether `reader::read` would refuse, and how; else 0, the fields that take a slot, and 0. Nothing is written.
pub fn check(layout: &[u8], bytes: &[u8], slots: &[u32], area: &[u8], mark: usize) -> Answer
    ensures { result ≡ read_checked layout.now bytes.now slots.now area.now mark }
{
    if !sizes_fit(layout.len(), slots.len(), bytes.len(), area.len(), mark) {
        return Answer::refused(Refusal::BadSize, 0);
    }
    let mut codes: [u32; layout::MAX_LAYOUT] = [0; layout::MAX_LAYOUT];
    let fields = match parser::parse(layout, false, &mut codes) {
        Ok(fields) => fields,
        Err(e) => return Answer::refused(e.why, e.place as u32),
    };
    let room = area.len() - mark;
    match fits(
        &codes[..fields.count],
        fields.slots,
        bytes,
        slots.len(),
        room,
    ) {
        Ok(()) => Answer::accepted(fields.slots as u32, 0),
        Err(e) => Answer::refused(e.why, e.place as u32),
    }
}

// There are room and slots enough whatever the record holds: a value takes at most 8 bytes of the area for each byte of
// the record.
pub fn surely_fits(n: usize, taken: usize, bytes: usize, slots: usize, room: usize) -> bool
    requires { (n ≤ max_layout) × (bytes ≤ max_record) }
    ensures { result ≡ surely_fits n taken bytes slots room }
{
    8 * (n * bytes) <= room && taken <= slots / record::SLOT_WIDTH
}
