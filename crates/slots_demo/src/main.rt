// Both calls over slot records, without a walk by hand: a table of slots goes by value. A record is packed, read back,
// and refused, a line for each; then none, one, the most and one more than the most slots go beside the same slots as
// numbers: the two lines of a pair are the same.
#![tactic(auto)]

use record::slots::{SIGNED, STRING, UNSET};
use record::{Answer, MAX_NUMBERS, MAX_SLOTS, ReadAnswer, SLOT_WIDTH};
use slots::{ROWS, SlotRecord};
use std::fmt::Formatter;
use std::{fmt, io};

// Packing from a table by value.
mod rows_pack;
// Reading into a table by value.
mod rows_read;

// The three numbers of an answer, in three digits each.
#[derive(Clone, Copy)]
struct Answered(Answer);

impl fmt::Display for Answered {
    fn fmt<W: fmt::Write>(&self, f: &mut Formatter<W>) -> fmt::Result {
        let Answer {
            number,
            first,
            second,
        } = self.0;
        write!(f, " {number:03} {first:03} {second:03}")
    }
}

// The three numbers of a reading's answer, and its steps.
#[derive(Clone, Copy)]
struct AnsweredRead(ReadAnswer);

impl fmt::Display for AnsweredRead {
    fn fmt<W: fmt::Write>(&self, f: &mut Formatter<W>) -> fmt::Result {
        let ReadAnswer { answer, steps } = self.0;
        write!(f, "{} {steps:03}", Answered(answer))
    }
}

// Numbers after a semicolon, in three digits each.
#[derive(Clone, Copy)]
struct Numbers<'a>(&'a [u32]);

impl fmt::Display for Numbers<'_> {
    fn fmt<W: fmt::Write>(&self, f: &mut Formatter<W>) -> fmt::Result {
        f.write_str(" ;")?;
        for n in self.0 {
            write!(f, " {n:03}")?;
        }
        Ok(())
    }
}

// The same of bytes.
#[derive(Clone, Copy)]
struct Bytes<'a>(&'a [u8]);

impl fmt::Display for Bytes<'_> {
    fn fmt<W: fmt::Write>(&self, f: &mut Formatter<W>) -> fmt::Result {
        f.write_str(" ;")?;
        for b in self.0 {
            write!(f, " {b:03}")?;
        }
        Ok(())
    }
}

// The numbers of a slot.
#[derive(Clone, Copy)]
struct Slot(SlotRecord);

impl fmt::Display for Slot {
    fn fmt<W: fmt::Write>(&self, f: &mut Formatter<W>) -> fmt::Result {
        let SlotRecord {
            kind,
            start,
            length,
            position,
        } = self.0;
        write!(f, "{}", Numbers(&[kind, start, length, position]))
    }
}

fn slot_of(kind: u32, start: u32, length: u32, position: u32) -> SlotRecord {
    SlotRecord {
        kind,
        start,
        length,
        position,
    }
}

fn pair(first: SlotRecord, second: SlotRecord) -> [SlotRecord; ROWS] {
    let mut table = [first; ROWS];
    table[1] = second;
    table
}

// Packs two slots over "abc", and the integers 5 and -3.
fn show_pack(
    rt: &impl Print,
    name: &str,
    first: SlotRecord,
    second: SlotRecord,
    output: &mut [u8; 5],
) -> io::Result<()> {
    let area = b"abc\x00\x00\x00\x00\x00\x00\x00\x05\xff\xff\xff\xff\xff\xff\xff\xfd";
    let a = rows_pack::pack_some(b"a3c2", pair(first, second), 2, area, output);
    println!(rt; "{name}{}{}", Answered(a), Bytes(output))
}

// Reads into two slots, from the mark 4 on.
fn show_read(
    rt: &impl Print,
    name: &str,
    layout: &[u8],
    bytes: &[u8; 5],
    first: SlotRecord,
    second: SlotRecord,
) -> io::Result<()> {
    let read = rows_read::read_some(layout, bytes, pair(first, second), 2, &mut [0; 32], 4);
    let [first, second, ..] = read.slots;
    println!(rt;
        "{name}{}{}{}",
        AnsweredRead(read.answer),
        Slot(first),
        Slot(second)
    )
}

// The numbers of the rows of a table.
const NUMBERS: usize = SLOT_WIDTH * ROWS;

// Strings of one byte of "xyz": x first, z in the last row that a call may have, and y in every other.
fn table() -> [SlotRecord; ROWS] {
    let mut rows = [slot_of(STRING, 1, 1, 1); ROWS];
    rows[0] = slot_of(STRING, 0, 1, 1);
    rows[MAX_SLOTS - 1] = slot_of(STRING, 2, 1, 1);
    rows
}

// The slots of `table` as numbers.
fn table_numbers() -> [u32; NUMBERS] {
    let mut numbers = [1; NUMBERS];
    numbers[1] = 0;
    numbers[MAX_NUMBERS - 3] = 2;
    numbers
}

// What is read: o first, q and r last, and p between.
const RECORD: &[u8] = b"oppppppppppppppppppppppppppppppppppppppppppppppppppppppppppppppqr";

fn pack_slots(rt: &impl Print, layout: &[u8], count: usize) -> io::Result<()> {
    let mut output = [0; ROWS];
    let a = rows_pack::pack_some(layout, table(), count, b"xyz", &mut output);
    println!(rt;
        "pack{}{}",
        Answered(a),
        Bytes(&[output[0], output[MAX_SLOTS - 1]])
    )
}

fn read_slots(rt: &impl Print, layout: &[u8], count: usize) -> io::Result<()> {
    let mut area = [0; 4 + ROWS];
    let read = rows_read::read_some(layout, RECORD, table(), count, &mut area, 4);
    println!(rt;
        "read{}{}{}{}",
        AnsweredRead(read.answer),
        Slot(read.slots[0]),
        Slot(read.slots[MAX_SLOTS - 1]),
        Bytes(&[area[4], area[3 + MAX_SLOTS]])
    )
}

// Both calls over the first `end` numbers, or over all where there are fewer.
fn pack_same(rt: &impl Print, layout: &[u8], end: usize) -> io::Result<()> {
    let mut output = [0; ROWS];
    let a = packer::pack(
        layout,
        &table_numbers()[..end.min(NUMBERS)],
        b"xyz",
        &mut output,
    );
    println!(rt;
        "pack{}{}",
        Answered(a),
        Bytes(&[output[0], output[MAX_SLOTS - 1]])
    )
}

fn read_same(rt: &impl Print, layout: &[u8], end: usize) -> io::Result<()> {
    let mut area = [0; 4 + ROWS];
    let mut numbers = table_numbers();
    let read = reader::read(
        layout,
        RECORD,
        &mut numbers[..end.min(NUMBERS)],
        &mut area,
        4,
    );
    println!(rt;
        "read{}{}{}{}",
        AnsweredRead(read),
        Numbers(&numbers[..SLOT_WIDTH]),
        Numbers(&numbers[MAX_NUMBERS - SLOT_WIDTH..MAX_NUMBERS]),
        Bytes(&[area[4], area[3 + MAX_SLOTS]])
    )
}

// All four calls by a layout of `fields` strings of one byte, over `count` slots.
fn all(rt: &impl Print, fields: usize, count: usize) -> io::Result<()> {
    let layout = &[b'a'; ROWS][..fields.min(ROWS)];
    let end = count.saturating_mul(SLOT_WIDTH);
    pack_slots(rt, layout, count)?;
    pack_same(rt, layout, end)?;
    read_slots(rt, layout, count)?;
    read_same(rt, layout, end)
}

fn two(rt: &impl Print) -> io::Result<()> {
    let mut bytes = [0; 5];
    let string = slot_of(STRING, 0, 3, 0);
    let integers = slot_of(SIGNED, 3, 2, 0);
    show_pack(rt, "packed", string, integers, &mut bytes)?;
    show_pack(rt, "refused", integers, string, &mut bytes)?;
    let unset = slot_of(UNSET, 0, 0, 0);
    show_read(rt, "read", b"a3c2", &bytes, unset, unset)?;
    show_read(rt, "short", b"a4c2", &bytes, unset, unset)?;
    show_read(rt, "refused", b"a3z", &bytes, string, integers)
}

fn main(rt: HostRuntime) -> io::Result<()> {
    two(&rt)?;
    let calls = [
        (0, 0),
        (1, 0),
        (1, 1),
        (2, 1),
        (MAX_SLOTS, MAX_SLOTS),
        (ROWS, MAX_SLOTS),
        (ROWS, ROWS),
    ];
    for (fields, count) in calls {
        all(&rt, fields, count)?;
    }
    Ok(())
}
