// Reading over a table of slot records that goes by value: `slots::read::read_slots` on a part of it, so that a program
// needs no walk by hand.
ghost use Rattle.std.specs.Prelude.{◌≡◌, ◌≤◌, min};
ghost use Rattle.slots.specs.Slots.{table_rows};
ghost use Rattle.slots_demo.specs.inside.rows_read.{ReadsRows};

use record::ReadAnswer;
use slots::{ROWS, SlotRecord};

// What a reading into a table by value leaves.
#[derive(Clone, Copy)]
pub struct Outcome {
    pub answer: ReadAnswer,
    pub slots: [SlotRecord; ROWS],
}

// Reads into the first `count` rows.
fn read_rows(
    layout: &[u8],
    bytes: &[u8],
    slots: [SlotRecord; ROWS],
    count: usize,
    area: &mut [u8],
    mark: usize,
) -> Outcome
    requires { count ≤ table_rows }
    ensures { ReadsRows layout.now bytes.now slots count area.old area.new mark result }
{
    let mut table = slots;
    let answer = slots::read::read_slots(layout, bytes, &mut table[..count], area, mark);
    Outcome {
        answer,
        slots: table,
    }
}

// `slots::read::read_slots` on the first `count` rows, or on all where there are fewer.
pub fn read_some(
    layout: &[u8],
    bytes: &[u8],
    slots: [SlotRecord; ROWS],
    count: usize,
    area: &mut [u8],
    mark: usize,
) -> Outcome
    ensures { ReadsRows layout.now bytes.now slots (min count table_rows) area.old area.new mark result }
{
    read_rows(layout, bytes, slots, count.min(ROWS), area, mark)
}
