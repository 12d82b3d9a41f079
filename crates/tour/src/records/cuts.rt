// Growth, run: a record packed by an old layout, and one by a new layout that has fields added at its end; each is
// cut at every place and read by both layouts.
use evolution::read_back::read_back;
use record::SLOT_WIDTH;
use std::io;
use tour_text::print::{AnsweredRead, Short};
use tour_text::values::Table;

const OLD: &[u8] = b"a3S2b5";

const NEW: &[u8] = b"a3S2b5xIuh3";

// The arguments: "abc", {258 -2}, "10110", {4000000000} and "7f1"; the old layout takes the first three.
const SLOTS: [u32; 5 * SLOT_WIDTH] = [
    1, 0, 3, 0, 2, 3, 2, 0, 1, 19, 5, 0, 2, 24, 1, 0, 1, 32, 3, 0,
];

const AREA: &[u8] =
    b"abc\x00\x00\x00\x00\x00\x00\x01\x02\xff\xff\xff\xff\xff\xff\xff\xfe10110\x00\x00\x00\x00\xee\x6b\x28\x007f1";

// One packing and one reading, into slots that are not set.
fn row(
    rt: &impl Print,
    writer: &[u8],
    slots: &[u32],
    cut: usize,
    reader: &[u8],
    table: &mut [u32],
) -> io::Result<()> {
    let mut output = [0; 16];
    let mut area = [0; 64];
    let r = read_back(
        writer,
        slots,
        AREA,
        &mut output,
        cut,
        reader,
        table,
        &mut area,
        0,
    );
    println!(rt;
        "read_back '{}' cut at {cut} by '{}'{}: {}",
        Short(writer),
        Short(reader),
        AnsweredRead(r),
        Table {
            slots: table,
            area: &area
        }
    )
}

// The record cut at each place below its end, and read by both layouts.
fn every(rt: &impl Print, writer: &[u8], slots: &[u32], end: usize) -> io::Result<()> {
    for cut in 0..end {
        row(rt, writer, slots, cut, OLD, &mut [0; 3 * SLOT_WIDTH])?;
        row(rt, writer, slots, cut, NEW, &mut [0; 5 * SLOT_WIDTH])?;
    }
    Ok(())
}

pub fn table(rt: &impl Print) -> io::Result<()> {
    every(rt, OLD, &SLOTS[..3 * SLOT_WIDTH], 9)?;
    every(rt, NEW, &SLOTS, 16)
}
