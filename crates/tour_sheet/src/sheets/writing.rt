// Tables as sheets.
use record::{MAX_AREA, MAX_NUMBERS, SLOT_WIDTH};
use sheet_claims::keep::keep;
use std::io;
use tour_text::notation::Arguments;
use tour_text::print::{Answered, Hex, Lent, Stored};
use tour_text::values::{Left, Table};

// Writes a table, and prints the line; `told` names what is lent.
fn show(
    rt: &impl Print,
    told: &[u8],
    slots: &[u32],
    area: &[u8],
    sheet: &mut [u8],
) -> io::Result<()> {
    let a = sheet_write::write(slots, area, sheet);
    println!(rt; "write{}{}{}", Lent(told), Answered(a), Stored(a, sheet))
}

// Writes the table that a text names; and writes it and reads the sheet into three slots.
pub fn example(rt: &impl Print, told: &[u8]) -> io::Result<()> {
    let all = Arguments::parse(told);
    let mut sheet = [0; 64];
    show(rt, told, all.slots(), all.area(), &mut sheet)?;
    let mut slots = [9; 3 * SLOT_WIDTH];
    let mut area = [0; 64];
    let a = keep(
        all.slots(),
        all.area(),
        &mut sheet,
        &mut slots,
        &mut area,
        4,
    );
    println!(rt;
        "keep{}{}{}",
        Lent(told),
        Answered(a),
        Left(
            a.number,
            Table {
                slots: &slots,
                area: &area
            }
        )
    )
}

// A table over an area of two bytes, into a buffer of 64 bytes.
fn placed(rt: &impl Print, told: &[u8], slots: &[u32]) -> io::Result<()> {
    show(rt, told, slots, b"xy", &mut [0; 64])
}

// Tables that no text names: no slots, an unsigned integer, a slot that is not set and says more, an empty value at the
// area's end.
pub fn slots(rt: &impl Print) -> io::Result<()> {
    placed(rt, b"no slots", &[])?;
    show(
        rt,
        b"slot 3 0 1 over eight bytes ff",
        &[3, 0, 1, 0],
        &[255; 8],
        &mut [0; 64],
    )?;
    placed(rt, b"slot 0 4294967295 7", &[0, 4294967295, 7, 0])?;
    placed(rt, b"slot 1 2 0 over two bytes", &[1, 2, 0, 0])
}

// Number 7.
fn bad_slots(rt: &impl Print) -> io::Result<()> {
    placed(rt, b"slot 1 3 0 over two bytes", &[1, 3, 0, 0])?;
    placed(rt, b"slot 1 1 2 over two bytes", &[1, 1, 2, 0])?;
    placed(rt, b"slot 2 0 1 over two bytes", &[2, 0, 1, 0])?;
    placed(
        rt,
        b"slots 0 0 0, 5 0 0, 6 0 0",
        &[0, 0, 0, 0, 5, 0, 0, 0, 6, 0, 0, 0],
    )
}

// Number 11, which comes after 7.
fn rooms(rt: &impl Print) -> io::Result<()> {
    show(
        rt,
        b"slot 1 0 2, buffer of 8 bytes",
        &[1, 0, 2, 0],
        b"OK",
        &mut [0; 8],
    )?;
    show(
        rt,
        b"slot 1 0 2, buffer of 7 bytes",
        &[1, 0, 2, 0],
        b"OK",
        &mut [0; 7],
    )?;
    show(rt, b"no slots, buffer of 2 bytes", &[], b"", &mut [0; 2])?;
    show(
        rt,
        b"slot 1 0 3, buffer of 2 bytes",
        &[1, 0, 3, 0],
        b"OK",
        &mut [0; 2],
    )
}

pub fn refusals(rt: &impl Print) -> io::Result<()> {
    bad_slots(rt)?;
    rooms(rt)
}

// Writes slots over an area as long as any, into a buffer of zeros. (The longest buffers and sheets, of more than a
// million bytes, are tried by the tests outside.)
fn long(
    rt: &impl Print,
    told: &[u8],
    slots: &[u32],
    area: &[u8],
    sheet: &mut [u8],
) -> io::Result<()> {
    sheet.fill(0);
    show(rt, told, slots, area, sheet)
}

// The bytes of a sheet whose one value fills an area: a header and an entry's length and kind before it.
const ONE_AREA: usize = MAX_AREA + 10;

// The longest that version 1 can hold, and a byte more: version 2. The longest value; and number 11. The version goes by
// the lengths, and not by the buffer. (Area and buffer are made once: making them for each line takes longer than all
// else.)
fn lengths(rt: &(impl Print + AllocGlobal)) -> io::Result<()> {
    let area = vec![in rt.alloc(); b'z'; MAX_AREA]?;
    let mut sheet = vec![in rt.alloc(); 0; ONE_AREA]?;
    long(rt, b"slot 1 0 65532", &[1, 0, 65532, 0], &area, &mut sheet)?;
    long(rt, b"slot 1 0 65533", &[1, 0, 65533, 0], &area, &mut sheet)?;
    long(
        rt,
        b"slots 1 0 32765, 1 0 32764",
        &[1, 0, 32765, 0, 1, 0, 32764, 0],
        &area,
        &mut sheet,
    )?;
    long(
        rt,
        b"slots 1 0 32765, 1 0 32765",
        &[1, 0, 32765, 0, 1, 0, 32765, 0],
        &area,
        &mut sheet,
    )?;
    long(
        rt,
        b"slot 1 0 524288",
        &[1, 0, 524288, 0],
        &area,
        &mut sheet,
    )?;
    long(
        rt,
        b"slots 1 0 524288, 0 0 0",
        &[1, 0, 524288, 0, 0, 0, 0, 0],
        &area,
        &mut sheet,
    )?;
    long(
        rt,
        b"slot 1 0 65533, buffer of 65543 bytes",
        &[1, 0, 65533, 0],
        &area,
        &mut vec![in rt.alloc(); 0; 65543]?,
    )?;
    long(
        rt,
        b"slot 1 0 65533, buffer of 65542 bytes",
        &[1, 0, 65533, 0],
        &area,
        &mut vec![in rt.alloc(); 0; 65542]?,
    )
}

// Number 1: slots and area at their limits and above.
pub fn sizes(rt: &(impl Print + AllocGlobal)) -> io::Result<()> {
    lengths(rt)?;
    show(
        rt,
        b"as many slots as can be",
        &[0; MAX_NUMBERS],
        b"",
        &mut [0; 256],
    )?;
    show(
        rt,
        b"a slot more",
        &[0; MAX_NUMBERS + SLOT_WIDTH],
        b"",
        &mut [0; 256],
    )?;
    placed(rt, b"a number more than a slot", &[0; SLOT_WIDTH + 1])?;
    let area = vec![in rt.alloc(); 0; MAX_AREA + 1]?;
    show(rt, b"area over its size", &[], &area, &mut [0; 8])
}

// Writes into eight bytes aa, and prints all that they then hold.
fn whole(rt: &impl Print, told: &[u8], slots: &[u32]) -> io::Result<()> {
    let mut sheet = [0xaa; 8];
    let a = sheet_write::write(slots, b"OKOK", &mut sheet);
    println!(rt;
        "write{} over OKOK into eight bytes aa{}; buffer{}",
        Lent(told),
        Answered(a),
        Hex(&sheet)
    )
}

// Bytes past the sheet stay as lent, and all of the buffer of a refused call does.
pub fn kept(rt: &impl Print) -> io::Result<()> {
    whole(rt, b"no slots", &[])?;
    whole(rt, b"slot 0 0 0", &[0; SLOT_WIDTH])?;
    whole(rt, b"slot 1 0 2", &[1, 0, 2, 0])?;
    whole(rt, b"slot 1 0 3", &[1, 0, 3, 0])?;
    whole(rt, b"slots 1 0 2, 1 4 1", &[1, 0, 2, 0, 1, 4, 1, 0])?;
    whole(rt, b"a number more than a slot", &[0; SLOT_WIDTH + 1])
}
