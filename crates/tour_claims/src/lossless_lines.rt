// Records read and packed again: a line for each, with the layout, the record, what is lent
// besides, the packer's three numbers, the bytes that it stored, and the values in between.
use lossless::pack_again::read_and_pack;
use record::SLOT_WIDTH;
use std::io;
use tour_text::lists;
use tour_text::print::{Answered, Hex, Lent, Short, Stored};
use tour_text::values::{Left, Table};

// Reads from the mark 3 on, packs again, and prints the line; `told` names the table where it is not one slot for each
// field.
fn show(
    rt: &impl Print,
    layout: &[u8],
    bytes: &[u8],
    told: &[u8],
    slots: &mut [u32],
) -> io::Result<()> {
    let mut area = [7; 64];
    let mut out = [9; 16];
    let a = read_and_pack(layout, bytes, slots, &mut area, 3, &mut out);
    println!(rt;
        "again '{}'{}{}{}{}{}",
        Short(layout),
        Hex(bytes),
        Lent(told),
        Answered(a),
        Stored(a, &out),
        Left(a.number, Table { slots, area: &area })
    )
}

// The form is a layout of five fields, flagged or not.
fn example(rt: &impl Print, kind: u8, layout: &[u8], rest: &[u8]) -> io::Result<()> {
    match kind {
        b'f' => show(rt, b"a2 SuB8hu2c", rest, b"", &mut [9; 5 * SLOT_WIDTH]),
        b'2' => show(rt, layout, rest, b"two slots", &mut [9; 2 * SLOT_WIDTH]),
        _ => show(rt, layout, rest, b"", &mut [9; SLOT_WIDTH]),
    }
}

// Examples: the number of slots, a layout, a bar and the record; or `f`, a bar and a record of the form.
pub fn main(rt: &impl Print) -> io::Result<()> {
    lists::run(
        rt,
        b"
h |Read and packed again: layout, record -> number, first, second: bytes: values

Two records that the form's fields fill.
f |ok\xff\xfe\xa1\x0f\xfe
f |no\x00\x00\x01\xf0\x7f
h |
h |Fields that lose something

Two records that show the same value, for each kind of field that the claim leaves out.
1 A3|ab\x20
1 A3|ab\x00
1 B9|\xa1\x80
1 B9|\xa1\xff
1 h|\x0f
1 h|\x1f
1 xc|\x00\x07
1 xc|\x01\x07
h |
h |A record too long, a slot too many

A byte past the last field, and a slot over.
1 c|\x07\x08
2 c|\x07
",
        |kind, layout, rest| example(rt, kind, layout, rest),
    )
}
