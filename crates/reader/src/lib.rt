// The reader (Tcl's `binary scan`): the values that a layout shows of a record, put into a table of slots and a value
// area. All is decided before anything is written.
#![tactic(auto)]

ghost use Rattle.std.specs.Prelude.{◌≡◌, ◌≤◌, length};
ghost use Rattle.layout.specs.Layout.{max_layout};
ghost use Rattle.record.specs.Reading.{read_all};

use layout::{Refusal, parser};
use record::ReadAnswer;

// A reading decided, with nothing written: `checking::check`.
pub mod checking;
// Both passes, over a layout that is read.
pub mod passes;

// Reads by a layout whose fields an array of N codes holds. (It checks as `checking::check` does and does not call it:
// the codes stay here, and a call that fills them for its caller costs more than the checks. The test of `passes::read`
// stands here too: the fields are then written by a call from here, where it costs least.)
pub fn read_by<const N: usize>(
    layout: &[u8],
    bytes: &[u8],
    slots: &mut [u32],
    area: &mut [u8],
    mark: usize,
) -> ReadAnswer
    requires { (N ≤ max_layout) × (length layout.now ≤ max_layout → length layout.now ≤ N) }
    ensures { record { answer = result; slots = slots.new; area = area.new }
        ≡ read_all layout.now bytes.now slots.old area.old mark }
{
    if !checking::sizes_fit(layout.len(), slots.len(), bytes.len(), area.len(), mark) {
        return ReadAnswer::refused(Refusal::BadSize, 0);
    }
    let mut codes: [u32; N] = [0; N];
    let fields = match parser::parse(layout, false, &mut codes) {
        Ok(fields) => fields,
        Err(e) => return ReadAnswer::refused(e.why, e.place as u32),
    };
    let codes = &codes[..fields.count];
    let room = area.len() - mark;
    if passes::surely_read(codes, fields.slots, bytes.len(), slots.len(), room) {
        return reading::fill(codes, bytes, slots, area, mark);
    }
    passes::read_measured(codes, fields.slots, bytes, slots, area, mark)
}

// Reads a record by a layout: sets slots from the first on, and puts their values into the area from the mark on. A
// refusal changes nothing.
pub fn read(
    layout: &[u8],
    bytes: &[u8],
    slots: &mut [u32],
    area: &mut [u8],
    mark: usize,
) -> ReadAnswer
    ensures { record { answer = result; slots = slots.new; area = area.new }
        ≡ read_all layout.now bytes.now slots.old area.old mark }
{
    read_by::<{ layout::MAX_LAYOUT }>(layout, bytes, slots, area, mark)
}

// As `read`, quicker by a short layout: a small array is enough for its fields.
pub fn read_short(
    layout: &[u8],
    bytes: &[u8],
    slots: &mut [u32],
    area: &mut [u8],
    mark: usize,
) -> ReadAnswer
    ensures { record { answer = result; slots = slots.new; area = area.new }
        ≡ read_all layout.now bytes.now slots.old area.old mark }
{
    if layout.len() <= layout::SHORT_LAYOUT {
        read_by::<{ layout::SHORT_LAYOUT }>(layout, bytes, slots, area, mark)
    } else {
        read_by::<{ layout::MAX_LAYOUT }>(layout, bytes, slots, area, mark)
    }
}
