// Lists of examples, one a line: `w` and a table to write, `r` and a sheet to read, `k` and a sheet to read and show
// all that is lent, or `h` and a heading. A line of no such letter is no example. No sheet among them has the byte 0a.
use super::{reading, writing};
use std::io;
use tour_text::print::Escaped;

fn example(rt: &impl Print, kind: u8, rest: &[u8]) -> io::Result<()> {
    match kind {
        b'h' => println!(rt; "{}", Escaped(rest)),
        b'w' => writing::example(rt, rest),
        b'r' => reading::example(rt, rest),
        b'k' => reading::whole(rt, rest),
        _ => Ok(()),
    }
}

fn run(rt: &impl Print, list: &[u8]) -> io::Result<()> {
    for line in list.split(|b| *b == b'\n') {
        if let [kind, _, rest @ ..] = line {
            example(rt, *kind, rest)?;
        }
    }
    Ok(())
}

pub fn written(rt: &impl Print) -> io::Result<()> {
    run(
        rt,
        b"
h Writing: table -> number, first, second: sheet. Keeping: the same, then read from the mark 4 on: values

The request's own table; values that are empty, zero and long, and slots that are not set among them.
w - \"OK\" {-2}
w - - -
w \"\" {} -
w {0} - {0}
w {1 258} - \"a\"
",
    )
}

pub fn read(rt: &impl Print) -> io::Result<()> {
    run(
        rt,
        b"
h\x20
h Reading: sheet -> number, first, second: values

The request's own sheet, the table of no slots, one that is not set, empty values, zero, an unsigned integer, and two integers.
r \x01\x00\x13\x00\x01\x00\x00\x03\x01OK\x00\x09\x02\xff\xff\xff\xff\xff\xff\xff\xfe
r \x01\x00\x00
r \x01\x00\x03\x00\x01\x00
r \x01\x00\x09\x00\x01\x01\x00\x01\x02\x00\x01\x03
r \x01\x00\x0b\x00\x09\x02\x00\x00\x00\x00\x00\x00\x00\x00
r \x01\x00\x0b\x00\x09\x03\xff\xff\xff\xff\xff\xff\xff\xff
r \x01\x00\x13\x00\x11\x02\x00\x00\x00\x00\x00\x00\x00\x01\x00\x00\x00\x00\x00\x00\x01\x02
h\x20
h Reading: refusals and limits
r\x20

Number 13, also where the sheet is too short. Number 12 at the header: too short, too small, too large, the low byte first, counting itself.
r \x03\x00\x00
r \x00\x00\x00
r \x03
r \xff\x00\x01
r \x01
r \x01\x00
r \x01\x00\x02\x00\x01\x00
r \x01\x00\x04\x00\x01\x00
r \x01\x03\x00\x00\x01\x00
r \x01\x00\x06\x00\x01\x00

Number 12 at the first entry whose length is wrong, by itself or for its kind, or whose kind is; and number 5, which comes after it.
r \x01\x00\x01\x00
r \x01\x00\x04\x00\x01\x00\x00
r \x01\x00\x02\x00\x00
r \x01\x00\x02\x00\x01
r \x01\x00\x03\x00\x02\x01
r \x01\x00\x08\x00\x02\x01A\x00\x03\x01B
r \x01\x00\x05\x00\x00\x00\x01\x00
r \x01\x00\x04\x00\x02\x00\x00
r \x01\x00\x04\x00\x02\x02\x07
r \x01\x00\x07\x00\x01\x00\x00\x02\x03\x07
r \x01\x00\x03\x00\x01\x05
r \x01\x00\x06\x00\x01\x00\x00\x01\xff
r \x01\x00\x06\x00\x01\x05\x00\x01\x05
r \x01\x00\x0c\x00\x01\x00\x00\x01\x00\x00\x01\x00\x00\x01\x00
r \x01\x00\x0d\x00\x01\x00\x00\x01\x00\x00\x01\x00\x00\x01\x00\x00

Version 2 has a header of five bytes and lengths of four; 12 at 0 where its entries would fit version 1, after every entry and before number 5.
r \x02
r \x02\x00\x00
r \x02\x00\x00\x00
r \x02\x00\x00\x00\x00
r \x02\x00\x00\x00\x05\x00\x00\x00\x01\x00
r \x02\x00\x00\x00\x05\x00\x00\x00\x01\x09
r \x02\x00\x00\x00\x14\x00\x00\x00\x01\x00\x00\x00\x00\x01\x00\x00\x00\x00\x01\x00\x00\x00\x00\x01\x00
",
    )
}

pub fn kept(rt: &impl Print) -> io::Result<()> {
    run(
        rt,
        b"

Slots past the last entry and bytes that no value covers stay as lent, and all of a refused call does.
k \x01\x00\x00
k \x01\x00\x03\x00\x01\x00
k \x01\x00\x08\x00\x03\x01xy\x00\x01\x01
k \x03\x00\x00
k \x01\x00\x07\x00\x02\x01x\x00\x01\x05
k \x01\x00\x0c\x00\x01\x01\x00\x01\x01\x00\x01\x01\x00\x01\x01
k \x01\x00\x0b\x00\x09\x02\x00\x00\x00\x00\x00\x00\x00\x07
",
    )
}
