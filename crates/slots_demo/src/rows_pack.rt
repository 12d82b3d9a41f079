// Packing over a table of slot records that goes by value: `slots::pack::pack_slots` on a part of it, so that a program
// needs no walk by hand.
ghost use Rattle.std.specs.Prelude.{◌≡◌, ◌≤◌, min, take};
ghost use Rattle.record.specs.Packing.{pack};
ghost use Rattle.slots.specs.Slots.{table_rows, slots_numbers};

use record::Answer;
use slots::{ROWS, SlotRecord};

// Packs the first `count` rows.
fn pack_rows(
    layout: &[u8],
    slots: [SlotRecord; ROWS],
    count: usize,
    area: &[u8],
    output: &mut [u8],
) -> Answer
    requires { count ≤ table_rows }
    ensures { record { answer = result; output = output.new }
        ≡ pack layout.now (slots_numbers (take count slots)) area.now output.old }
{
    slots::pack::pack_slots(layout, &slots[..count], area, output)
}

// `slots::pack::pack_slots` on the first `count` rows; a count above the rows lends all, one more than a table may
// have.
pub fn pack_some(
    layout: &[u8],
    slots: [SlotRecord; ROWS],
    count: usize,
    area: &[u8],
    output: &mut [u8],
) -> Answer
    ensures { record { answer = result; output = output.new }
        ≡ pack layout.now (slots_numbers (take (min count table_rows) slots)) area.now output.old }
{
    pack_rows(layout, slots, count.min(ROWS), area, output)
}
