// Sheets as tables.
use record::{MAX_AREA, MAX_NUMBERS, SLOT_WIDTH};
use std::io;
use tour_text::print::{Answered, Hex, Lent};
use tour_text::values::{Left, Table, Whole};

// Reads a sheet, and prints the line; `told` names what is lent besides.
fn show(
    rt: &impl Print,
    sheet: &[u8],
    told: &[u8],
    slots: &mut [u32],
    area: &mut [u8],
    mark: usize,
) -> io::Result<()> {
    let a = sheet_read::read(sheet, slots, area, mark);
    println!(rt;
        "read{}{}{}{}",
        Hex(sheet),
        Lent(told),
        Answered(a),
        Left(a.number, Table { slots, area })
    )
}

// Reads a sheet into three slots that are not set.
pub fn example(rt: &impl Print, sheet: &[u8]) -> io::Result<()> {
    show(rt, sheet, b"", &mut [0; 3 * SLOT_WIDTH], &mut [0; 64], 0)
}

// Reads a sheet of one slot into an area of eight bytes.
fn one(rt: &impl Print, sheet: &[u8], told: &[u8], mark: usize) -> io::Result<()> {
    show(rt, sheet, told, &mut [0; SLOT_WIDTH], &mut [0; 8], mark)
}

// Number 11, and a mark above the area: number 1.
fn marks(rt: &impl Print) -> io::Result<()> {
    let integer = b"\x01\x00\x0b\x00\x09\x02\x00\x00\x00\x00\x00\x00\x00\x07";
    one(rt, integer, b"mark 0, area of 8 bytes", 0)?;
    one(rt, integer, b"mark 1, area of 8 bytes", 1)?;
    let empty = b"\x01\x00\x03\x00\x01\x01";
    one(rt, empty, b"mark 8, area of 8 bytes", 8)?;
    one(rt, empty, b"mark 9, area of 8 bytes", 9)
}

// A sheet of no slots into a table that is lent.
fn header(rt: &impl Print, told: &[u8], slots: &mut [u32], area: &mut [u8]) -> io::Result<()> {
    show(rt, b"\x01\x00\x00", told, slots, area, 0)
}

// Number 1: slots and area at their limits and above.
pub fn sizes(rt: &(impl Print + AllocGlobal)) -> io::Result<()> {
    marks(rt)?;
    let mut longest = vec![in rt.alloc(); 0; MAX_AREA]?;
    header(
        rt,
        b"as many slots as can be",
        &mut [0; MAX_NUMBERS],
        &mut longest,
    )?;
    header(
        rt,
        b"a slot more",
        &mut [0; MAX_NUMBERS + SLOT_WIDTH],
        &mut [0; 8],
    )?;
    header(
        rt,
        b"a number more than a slot",
        &mut [0; SLOT_WIDTH + 1],
        &mut [0; 8],
    )?;
    let mut longer = vec![in rt.alloc(); 0; MAX_AREA + 1]?;
    header(rt, b"area over its size", &mut [0; SLOT_WIDTH], &mut longer)
}

// Reads into three slots of nines and eight bytes aa from the mark 1 on, and prints all that they then hold.
pub fn whole(rt: &impl Print, sheet: &[u8]) -> io::Result<()> {
    let mut slots = [9; 3 * SLOT_WIDTH];
    let mut area = [0xaa; 8];
    let a = sheet_read::read(sheet, &mut slots, &mut area, 1);
    println!(rt;
        "read{} into slots of 9, eight bytes aa, mark 1{}{}",
        Hex(sheet),
        Answered(a),
        Whole(Table {
            slots: &slots,
            area: &area
        })
    )
}
