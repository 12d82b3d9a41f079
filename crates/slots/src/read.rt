// Reading over a slice of slot records: the slots are taken apart into numbers, the call is made over the numbers, and
// the slots are put together again.
ghost use Rattle.std.specs.Prelude.{◌≡◌, ◌≤◌, length};
ghost use Rattle.slots.specs.Slots.{max_numbers};
ghost use Rattle.slots.specs.Reading.{ReadsFirst, read_slots};

use super::SlotRecord;
use layout::Refusal;
use record::{Answer, ReadAnswer};

// The reader over the numbers of the first `count` slots.
fn read_first(
    layout: &[u8],
    bytes: &[u8],
    numbers: &mut [u32],
    count: usize,
    area: &mut [u8],
    mark: usize,
) -> ReadAnswer
    requires { max_numbers ≤ length numbers.old }
    ensures { ReadsFirst layout.now bytes.now numbers.old numbers.new count area.old area.new mark result }
{
    if record::MAX_SLOTS < count {
        return ReadAnswer {
            answer: Answer::refused(Refusal::BadSize, 0),
            steps: 0,
        };
    }
    let end = count * record::SLOT_WIDTH;
    reader::read(layout, bytes, &mut numbers[..end], area, mark)
}

// Reads a record by a layout: sets slots from the first on, and puts their values into the area from the mark on. A
// refusal changes nothing.
pub fn read_slots(
    layout: &[u8],
    bytes: &[u8],
    slots: &mut [SlotRecord],
    area: &mut [u8],
    mark: usize,
) -> ReadAnswer
    ensures { record { answer = result; slots = slots.new; area = area.new }
        ≡ read_slots layout.now bytes.now slots.old area.old mark }
{
    let mut numbers = [0; record::MAX_NUMBERS];
    let count = super::load(slots, &mut numbers);
    let answer = read_first(layout, bytes, &mut numbers, slots.len(), area, mark);
    super::save(slots, &numbers, count);
    answer
}
