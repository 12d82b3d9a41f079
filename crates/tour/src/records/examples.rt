// Lists of examples: a letter, a layout, a bar and what follows. `p` and the arguments to pack; the number of slots and
// the record to read; `k` or `w` and nothing, to pack or read and show all that is lent; or a letter of a call over
// other slots, outputs or marks, and what is lent.
use super::{packing, readings};
use record::SLOT_WIDTH;
use std::io;
use tour_text::lists;

fn example(
    rt: &(impl Print + AllocGlobal),
    kind: u8,
    layout: &[u8],
    rest: &[u8],
) -> io::Result<()> {
    match kind {
        b'1' => readings::example(rt, layout, rest, &mut [0; SLOT_WIDTH]),
        b'2' => readings::example(rt, layout, rest, &mut [0; 2 * SLOT_WIDTH]),
        b'8' => readings::eight(rt, layout, rest),
        b'w' => readings::whole(rt, layout),
        b'k' => packing::whole(rt, layout),
        b's' => packing::placed(rt, layout, rest),
        b'q' => packing::slot(rt, layout, rest, [1, 1, 1, 4294967295]),
        b'f' => packing::slot(rt, layout, rest, [1, 4294967295, 1, 0]),
        b'u' => packing::unsigned(rt, layout, rest),
        b'o' => packing::output(rt, layout, rest, 2),
        b'l' => packing::output(rt, layout, rest, 32768),
        b'a' => packing::output(rt, layout, rest, 32769),
        _ => packing::example(rt, layout, rest),
    }
}

fn run(rt: &(impl Print + AllocGlobal), list: &[u8]) -> io::Result<()> {
    lists::run(
        rt,
        list,
        |kind, layout, rest| example(rt, kind, layout, rest),
    )
}

pub fn packings(rt: &(impl Print + AllocGlobal)) -> io::Result<()> {
    run(
        rt,
        b"
h |Packing: layout, arguments -> number, first, second: bytes of the result

The packings of 001 to 003, in the order of 001.
p a7a*a|\"alpha\" \"bravo\" \"charlie\"
p a*|\"\xe2\x82\xac\"
p a*|\"\xa4\"
p A6A*A|\"alpha\" \"bravo\" \"charlie\"
p b5b*|\"11100\" \"111000011010\"
p B5B*|\"11100\" \"111000011010\"
p H3H*H2|\"ab\" \"DEF\" \"987\"
p H3H*|\"ab\" \"DEF\"
p h3h*h2|\"AB\" \"def\" \"987\"
p h3h*|\"AB\" \"def\"
p ii|{16} {22}
p c3cc*|{3 -3 128 1} {260} {2 5}
p c|{2 5}
p s3|{3 -3 258 1}
p S3|{3 -3 258 1}
p i3|{3 -3 65536 1}
p I3|{3 -3 65536 1}
p w|{7810179016327718216}
p Wc|{4785469626960341345} {110}
p s1|{32768}
p Ia*|{3} \"\xe2\x82\xac\"
p d3d|
p a3xa3x2a3|\"abc\" \"def\" \"ghi\"
p a3X*a3X2a3|\"abc\" \"def\" \"ghi\"
p a5@2a1@*a3@10a1|\"abcde\" \"f\" \"ghi\" \"j\"
h |
h |Packing: rulings of 01

What 01 rules beyond the examples: how a field is spelled, how many items it takes, and the moves.
p |
p    |
p   c  s |{1} {2}
p c03|{1 2 3}
p su2|{-1 65537}
p W*w|{-2 1} {-2}
p c0a0c*|{} \"\" {}
p b2|\"102\"
p bh|\"\" \"\"
p a4X4x2|\"abcd\"
p aX9a|\"a\" \"b\"
p @3|
p a2X@*a|\"ab\" \"c\"
p x2X2@1|
p au3xu2|\"Mar\"
h |
h |Packing: refusals and limits

Numbers 2, 3 and 4, and a count at its limit; 5, 6 and 8; 9 and 10; 11, and a result at the limit.
p c 3|{1}
p cauu|{1} \"x\"
p a4096|\"x\"
p a32768|\"x\"
p c a32769|{1} \"x\"
p a@|\"x\"
p x*|
p @u|
p a|
p a|\"x\" \"y\"
p aa|\"x\" -
p a|{1}
p ac|\"x\" \"1\"
p c3|{1 2}
p s|{}
p b*|\"012\"
p ch2|{1} \"0g\"
p a4095c|\"x\" {7}
p a4096c|\"x\" {7}

Number 7: a slot in its place, and one of no kind; its position is not looked at; past the area's end, and an empty value at it.
s a|slot 1 1 1, area of 2 bytes
s a|slot 5 0 1, area of 2 bytes
q a|slot 1 1 1 4294967295, area of 2 bytes
s a|slot 1 1 2, area of 2 bytes
s a*|slot 1 2 0, area of 2 bytes
s a*|slot 1 3 0, area of 2 bytes
f a|slot 1 4294967295 1, area of 2 bytes
s c|slot 2 0 1, area of 2 bytes
",
    )
}

pub fn outputs_and_readings(rt: &(impl Print + AllocGlobal)) -> io::Result<()> {
    run(
        rt,
        b"

Outputs as long as can be, one above, as long as the result, and shorter; an unsigned integer.
l a|slot 1 0 1, output of 32768 bytes
a a|slot 1 0 1, output of 32769 bytes
l a32768|slot 1 0 2, output of 32768 bytes
o a2|slot 1 0 2, output of 2 bytes
o a2x|slot 1 0 2, output of 2 bytes
u c|slot 3 0 1, area of 8 bytes

What a packing does not touch: the output after the result, and all of it after a refusal.
k a2x|
k a2x7|
k a2xz|
h |
h |Reading: layout, record -> number, first, second, steps: values

The readings of 001 to 003, in the order of 001.
2 s3s|abcdefg
1 s1|\x00\x80
1 su1|\x00\x80
2 a6a10|abcde\x00fghi
1 a*|\xe2\x82\xac
1 A*|abc efghi  \x00
2 b5b*|\x07\x87\x05
2 B5B*|\x70\x87\x05
2 H3H*|\x07\xc6\x05\x1f\x34
2 H3H*|\x07\x86\x05
2 h3h*|\x07\x86\x05\x12\x34
2 h3h*|\x07\x86\x05
2 c2c*|\x07\x86\x05
2 s2s*|\x05\x00\x07\x00\xf0\xff
2 S2S*|\x00\x05\x00\x07\xff\xf0
2 i2i*|\x05\x00\x00\x00\x07\x00\x00\x00\xf0\xff\xff\xff
2 I2I*|\x00\x00\x00\x05\x00\x00\x00\x07\xff\xff\xff\xf0
2 wi*|\x05\x00\x00\x00\x07\x00\x00\x00\xf0\xff\xff\xff
2 WI*|\x00\x00\x00\x05\x00\x00\x00\x07\xff\xff\xff\xf0
1 I|\x00\x00\x00\x03
1 I|
1 f|\x3f\xcc\xcc\xcd
1 x2H*|\x01\x02\x03\x04
2 c2XH*|\x01\x02\x03\x04
2 c2@1H*|\x01\x02\x03\x04
h |
h |Reading: the runs of 004

The runs of 004. Its text says 21 bytes of the second; its own run shows 16 digits.
1 b*|\x07\x87\x05
2 b5b*|\xff\xff\xff
2 b8b*|\xff\xff\xff
2 b9b*|\xff\xff\xff
1 I|\x00\x00\x12\x34
1 i|\x34\x12\x00\x00
1 B*|Hello!
2 B*X*H*|Tcl
1 @0@|Hello!
h |
h |Reading: rulings of 01

The examples of 01, and what it rules beyond them.
1 su|\x00\x80
1 s|\x00\x80
1 s*|A
1 c|
1 a0|
2 s*a|\x01\x02A
1 s|A
2 a2c|ab
1 x9a0|ab
1 x*a|ab
2 a2X9a|ab
1 @9a0|ab
1 @*Xa|ab
1 cu|\x80
1 w|\xff\xff\xff\xff\xff\xff\xff\xff
1 wu|\xff\xff\xff\xff\xff\xff\xff\xff
1 W|\x80\x00\x00\x00\x00\x00\x00\x00
2 A4a|a \x00 b
1 A3| \x00\x20
1 H|\xaf
2 c|\x07
h |
h |Reading: a table that holds an earlier reading
",
    )
}

pub fn places_and_refusals(rt: &(impl Print + AllocGlobal)) -> io::Result<()> {
    run(
        rt,
        b"
h |
h |Reading: where each field began

After a skip, also one past the end; before an empty field; again after a step back.
w xa|
w x9a0s*|
w aXa|
h |
h |Reading: refusals and limits
1 c 3|\x01
2 cd|\x01
1 a32769|ab
1 a@|ab
1 cc|
",
    )
}

pub fn marks(rt: &(impl Print + AllocGlobal)) -> io::Result<()> {
    run(
        rt,
        b"

Marks: numbers 11 and 1.
8 c|mark 0, area of 8 bytes
8 c|mark 1, area of 8 bytes
8 a0|mark 8, area of 8 bytes
8 a0|mark 9, area of 8 bytes

Slots that are not set and bytes that no value covers stay as lent, and all of a refused call does.
w a2c|
w b*|
w a2z|
h |
h |Demand 3: both records, every cut, both layouts
",
    )
}
