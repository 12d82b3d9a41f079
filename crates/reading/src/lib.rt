// The second pass of a reading over the fields: the values go into the area, and what the slots say of them into the
// table.
#![tactic(auto)]

ghost use Rattle.std.specs.Prelude.{◌≡◌, ◌≤◌, length};
ghost use Rattle.layout.specs.Layout.{max_layout};
ghost use Rattle.record.specs.Table.{max_slots, max_record, max_area};
ghost use Rattle.record.specs.Packing.{accepted};
ghost use Rattle.reading.specs.inside.Run.{values_of};
ghost use Rattle.reading.specs.inside.Tables.{put_all, TableRoom};

use record::{Answer, Cursor, ReadAnswer};

// One field of the run: what is found there, and where the cursor is after it.
pub mod positions;
// The value of a field.
pub mod value;
// The first pass: how much of the area the values take.
pub mod measure;
// One value put into the area, and its slot set.
mod put;

fn answer(set: usize, place: usize, steps: usize) -> ReadAnswer
    requires { (set ≤ max_slots) × (place ≤ max_area) × (steps ≤ max_layout) }
    ensures { result ≡ record { answer = accepted set place; steps = steps } }
{
    ReadAnswer {
        answer: Answer::accepted(set as u32, place as u32),
        steps: steps as u32,
    }
}

pub fn fill(
    codes: &[u32],
    bytes: &[u8],
    slots: &mut [u32],
    area: &mut [u8],
    mark: usize,
) -> ReadAnswer
    requires sizes { (length codes.now ≤ max_layout) × (length bytes.now ≤ max_record) }
    requires table_room { TableRoom (values_of (length codes.now) codes.now bytes.now) slots.old area.old mark }
    ensures { record { answer = result; slots = slots.new; area = area.new }
        ≡ put_all (length codes.now) codes.now bytes.now slots.old area.old mark }
{
    let mut c = Cursor::new(bytes.len());
    let mut set: usize = 0;
    let mut place = mark;
    for (i, &code) in codes.iter().enumerate() {
        let Some(turn) = positions::step::<true>(code, c) else {
            return answer(set, place, i + 1);
        };
        if let Some(found) = turn.found {
            place = put::put(slots, set, area, place, bytes, found);
            set += 1;
        }
        c = turn.next;
    }
    answer(set, place, codes.len())
}
