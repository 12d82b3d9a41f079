// Packing over a slice of slot records: the slots are taken apart into numbers, and the call is made over the numbers.
ghost use Rattle.std.specs.Prelude.{◌≡◌, ◌≤◌, length};
ghost use Rattle.record.specs.Packing.{pack};
ghost use Rattle.slots.specs.Slots.{max_numbers, slots_numbers};
ghost use Rattle.slots.specs.inside.pack.{pack_first};

use super::SlotRecord;
use layout::Refusal;
use record::Answer;

// The packer over the numbers of the first `count` slots.
fn pack_first(
    layout: &[u8],
    numbers: &[u32],
    count: usize,
    area: &[u8],
    output: &mut [u8],
) -> Answer
    requires { max_numbers ≤ length numbers.now }
    ensures { record { answer = result; output = output.new }
        ≡ pack_first layout.now numbers.now count area.now output.old }
{
    if record::MAX_SLOTS < count {
        return Answer::refused(Refusal::BadSize, 0);
    }
    let end = count * record::SLOT_WIDTH;
    packer::pack(layout, &numbers[..end], area, output)
}

// Packs the arguments into the output by the layout. A refusal changes nothing.
pub fn pack_slots(layout: &[u8], slots: &[SlotRecord], area: &[u8], output: &mut [u8]) -> Answer
    ensures { record { answer = result; output = output.new }
        ≡ pack layout.now (slots_numbers slots.now) area.now output.old }
{
    let mut numbers = [0; record::MAX_NUMBERS];
    super::load(slots, &mut numbers);
    pack_first(layout, &numbers, slots.len(), area, output)
}
