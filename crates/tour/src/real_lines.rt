// Reals: a line for each call, with the layout, the arguments or the record, the answer's numbers,
// and the bytes or the values. A double is shown by its pattern.
use record::SLOT_WIDTH;
use std::io;
use tour_text::lists;
use tour_text::notation::Arguments;
use tour_text::print::{Answered, AnsweredRead, Hex, Lent, Short, Stored};
use tour_text::values::{Left, Table};

// Packs the arguments that a text names.
fn pack(rt: &impl Print, layout: &[u8], told: &[u8]) -> io::Result<()> {
    let all = Arguments::parse(told);
    let mut out = [0; 48];
    let a = packer::pack(layout, all.slots(), all.area(), &mut out);
    println!(rt;
        "pack '{}'{}{}{}",
        Short(layout),
        Lent(told),
        Answered(a),
        Stored(a, &out)
    )
}

// Reads into one slot that is not set.
fn read(rt: &impl Print, layout: &[u8], bytes: &[u8]) -> io::Result<()> {
    let mut slots = [0; SLOT_WIDTH];
    let mut area = [7; 32];
    let r = reader::read(layout, bytes, &mut slots, &mut area, 0);
    println!(rt;
        "read '{}'{}{}{}",
        Short(layout),
        Hex(bytes),
        AnsweredRead(r),
        Left(
            r.answer.number,
            Table {
                slots: &slots,
                area: &area
            }
        )
    )
}

fn example(rt: &impl Print, kind: u8, layout: &[u8], rest: &[u8]) -> io::Result<()> {
    match kind {
        b'r' => read(rt, layout, rest),
        _ => pack(rt, layout, rest),
    }
}

// Examples: `p`, a layout, a bar and the arguments to pack; or `r`, a layout, a bar and the record to read.
pub fn main(rt: &impl Print) -> io::Result<()> {
    lists::run(
        rt,
        b"
h |Reals: examples of 001 to 003

With r R q Q for the f and d of a machine of that order: 1.6 and 3.4; 1, 2, 3, 4 and 0.1.
p r2|<3ff999999999999a 400b333333333333>
p R2|<3ff999999999999a 400b333333333333>
p q1|<3ff999999999999a>
p Q1|<3ff999999999999a>
p q3q|<3ff0000000000000 4000000000000000 4008000000000000 4010000000000000> <3fb999999999999a>
r R|\x3f\xcc\xcc\xcd
r q|\x9a\x99\x99\x99\x99\x99\xf9\x3f
p f2|<3ff999999999999a 400b333333333333>
p d1|<3ff999999999999a>
h |
h |The nearest single

Ties to even; the smallest single, half and one and a half of it; a carry into the exponent; signs of zeros; the largest single and what is above it.
p R2|<3ff0000010000000 3ff0000030000000>
p R3|<36a0000000000000 3690000000000000 36a8000000000000>
p R|<380fffffffffffff>
p R2|<8000000000000000 81a56e1fc2f8f359>
p R4|<47efffffe0000000 47effffff0000000 47f0000000000000 7ff0000000000000>
p R|<fff0000000000000>
h |
h |Counts and kinds

How many; a flag; numbers 6 to 10.
p r|<3ff0000000000000 4000000000000000>
p r|<>
p r3|<3ff0000000000000 4000000000000000>
p r*|<>
p R*|<3ff0000000000000 4000000000000000>
p Ru|<3ff0000000000000>
p r|{1}
p q|\"1\"
p w|<3ff0000000000000>
p a|<3ff0000000000000>
p r|-
h |
h |Number 16

A NaN among the items that become singles, quiet or signalling, after the slots before it and after its own other checks.
p r|<7ff8000000000000>
p R|<fff0000000000001>
p cr*|{1} <3ff0000000000000 7ff0000000000001>
p R1|<3ff0000000000000 7ff8000000000000>
p rb|<7ff8000000000000> \"x\"
p br|\"x\" <7ff8000000000000>
p r3|<7ff8000000000000>
p Q2|<7ff0000000000001 fff8000000000000>
h |
h |Reading

A part of an item; subnormal singles; infinities; NaNs; no bytes; none but a list.
r r*|\xcd\xcc\xcc\x3f\x9a
r R2|\x00\x00\x00\x01\x80\x7f\xff\xff
r R2|\x7f\x80\x00\x00\xff\x80\x00\x00
r Ru2|\xff\xc0\x00\x01\x7f\x80\x00\x01
r Qu|\x7f\xf0\x00\x00\x00\x00\x00\x01
r q|\x00\x00\x00
r Q*|
h |
h |Narrowed once and read, stored the same again
r R|\x3f\xcc\xcc\xcd
p R|<3ff99999a0000000>
",
        |kind, layout, rest| example(rt, kind, layout, rest),
    )
}
