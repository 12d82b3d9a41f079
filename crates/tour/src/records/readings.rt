// Reading: a line for each call, with the layout, the record, the answer's four numbers and the values that the slots
// then show.
use super::packing;
use record::{MAX_AREA, MAX_NUMBERS, MAX_RECORD, SLOT_WIDTH};
use std::io;
use tour_text::print::{AnsweredRead, Hex, Lent, Short};
use tour_text::values::{Left, Table, Whole};

// Reads, and prints the line; `told` names what is lent besides.
fn show(
    rt: &impl Print,
    layout: &[u8],
    record: &[u8],
    told: &[u8],
    slots: &mut [u32],
    area: &mut [u8],
    mark: usize,
) -> io::Result<()> {
    let r = reader::read(layout, record, slots, area, mark);
    println!(rt;
        "read '{}'{}{}{}{}",
        Short(layout),
        Hex(record),
        Lent(told),
        AnsweredRead(r),
        Left(r.answer.number, Table { slots, area })
    )
}

// Reads into two slots of nines and eight bytes aa from the mark 1 on, and prints all that they then hold.
pub fn whole(rt: &impl Print, layout: &[u8]) -> io::Result<()> {
    let mut slots = [9; 2 * SLOT_WIDTH];
    let mut area = [0xaa; 8];
    let r = reader::read(layout, b"xy", &mut slots, &mut area, 1);
    println!(rt;
        "read '{}' 78 79 into slots of 9, eight bytes aa, mark 1{}{}",
        Short(layout),
        AnsweredRead(r),
        Whole(Table {
            slots: &slots,
            area: &area
        })
    )
}

// Reads into slots that are lent.
pub fn example(rt: &impl Print, layout: &[u8], record: &[u8], slots: &mut [u32]) -> io::Result<()> {
    show(rt, layout, record, b"", slots, &mut [0; 512], 0)
}

// A second reading into the same table: a value that it leaves alone, below its mark, is shown as before.
pub fn kept(rt: &impl Print) -> io::Result<()> {
    let mut slots = [0; 2 * SLOT_WIDTH];
    let mut area = [0; 512];
    show(
        rt,
        b"a3a3",
        b"abcdef",
        b"into an empty table",
        &mut slots,
        &mut area,
        0,
    )?;
    show(
        rt,
        b"cc",
        b"\x01",
        b"into the same table, mark 6",
        &mut slots,
        &mut area,
        6,
    )
}

// Reads into a table that is lent, with room for every value.
fn roomy(
    rt: &(impl Print + AllocGlobal),
    layout: &[u8],
    record: &[u8],
    told: &[u8],
    slots: &mut [u32],
) -> io::Result<()> {
    let mut area = vec![in rt.alloc(); 0; 262144]?;
    show(rt, layout, record, told, slots, &mut area, 0)
}

// Number 1: layouts, slots and records at their limits and one above.
pub fn sizes(rt: &(impl Print + AllocGlobal)) -> io::Result<()> {
    let mut one = [0; SLOT_WIDTH];
    roomy(rt, &[b'x'; 256], b"ab", b"layout of 256 bytes", &mut one)?;
    roomy(rt, &[b'x'; 257], b"ab", b"layout of 257 bytes", &mut one)?;
    roomy(
        rt,
        &[b'c'; 64],
        &[7; 64],
        b"64 slots",
        &mut [0; MAX_NUMBERS],
    )?;
    roomy(
        rt,
        &[b'c'; 65],
        &[7; 65],
        b"65 slots",
        &mut [0; MAX_NUMBERS + SLOT_WIDTH],
    )?;
    roomy(rt, b"c", b"\x07", b"five numbers", &mut [0; 5])?;
    records(rt)
}

fn records(rt: &(impl Print + AllocGlobal)) -> io::Result<()> {
    let record = vec![in rt.alloc(); 9; MAX_RECORD]?;
    roomy(
        rt,
        b"c32768",
        &record,
        b"record of 32768 bytes",
        &mut [0; SLOT_WIDTH],
    )?;
    roomy(
        rt,
        b"b*",
        &record,
        b"record of 32768 bytes",
        &mut [0; SLOT_WIDTH],
    )?;
    let above = vec![in rt.alloc(); 9; MAX_RECORD + 1]?;
    roomy(
        rt,
        b"@32767c",
        &above,
        b"record of 32769 bytes",
        &mut [0; SLOT_WIDTH],
    )
}

// Reads into one slot and an area that is lent, from a mark on.
fn marked(
    rt: &impl Print,
    layout: &[u8],
    record: &[u8],
    told: &[u8],
    area: &mut [u8],
    mark: usize,
) -> io::Result<()> {
    show(rt, layout, record, told, &mut [0; SLOT_WIDTH], area, mark)
}

// Reads into an area of 8 bytes, from the mark on that a text names.
pub fn eight(rt: &impl Print, layout: &[u8], told: &[u8]) -> io::Result<()> {
    let mark = usize::from(packing::digit(told, 5));
    marked(rt, layout, b"\x07", told, &mut [0; 8], mark)
}

// Number 1: areas at their limit and one above.
pub fn areas(rt: &(impl Print + AllocGlobal)) -> io::Result<()> {
    let mut area = vec![in rt.alloc(); 0; MAX_AREA]?;
    marked(
        rt,
        b"a",
        b"q",
        b"mark 524287, area of 524288 bytes",
        &mut area,
        524287,
    )?;
    let mut area = vec![in rt.alloc(); 0; MAX_AREA + 1]?;
    marked(
        rt,
        b"a",
        b"q",
        b"mark 524287, area of 524289 bytes",
        &mut area,
        524287,
    )
}
