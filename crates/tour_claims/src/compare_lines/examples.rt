// Lists of examples: a letter, a layout, the two records and what is lent besides, with bars between. The letter is a
// digit, for a report of as many numbers, or `w`, to show all that is lent, with a report of seven, or `v`, with one of
// five.
use super::comparing;
use std::io;
use tour_text::lists;
use tour_text::lists::at_bar;

fn call(
    rt: &impl Print,
    kind: u8,
    layout: &[u8],
    first: &[u8],
    second: &[u8],
    told: &[u8],
) -> io::Result<()> {
    match kind {
        b'0' => comparing::own(rt, layout, first, second, told, &mut []),
        b'5' => comparing::own(rt, layout, first, second, told, &mut [9; 5]),
        b'6' => comparing::own(rt, layout, first, second, told, &mut [9; 6]),
        b'v' => comparing::whole(rt, layout, first, second, &mut [9; 5]),
        b'w' => comparing::whole(rt, layout, first, second, &mut [9; 7]),
        _ => comparing::own(rt, layout, first, second, told, &mut [9; 9]),
    }
}

fn run(rt: &impl Print, list: &[u8]) -> io::Result<()> {
    lists::run(rt, list, |kind, layout, rest| {
        if let Some((first, rest)) = at_bar(rest)
            && let Some((second, told)) = at_bar(rest)
        {
            call(rt, kind, layout, first, second, told)?;
        }
        Ok(())
    })
}

pub fn verdicts(rt: &impl Print) -> io::Result<()> {
    run(
        rt,
        b"
h |Comparing: layout, first and second record -> number, first, second; report

Strings and digits: the same, parted at a byte, one that begins the other, and records that differ only where nothing is shown.
9 a3|abc|abc|
9 a3|abc|abd|
9 a3|abc|xbc|
9 a*|abc|ab|
9 a*|ab|abc|
9 a*|abc||
9 a*|||
9 A4|ab  |ab\x00\x00|
9 b5|\x07|\xe7|
9 b8|\x07|\x06|
9 H2|\xaf|\xbf|
9 xa|1a|2a|

Integers are shown as eight bytes each, the highest first.
9 c|\x07|\x07|
9 c|\x07|\x08|
9 c|\xff|\x00|
9 cu|\xff|\x00|
9 s|\x00\x01|\x01\x00|
9 c2|\x01\x02|\x01\x03|
9 c2|\x01\x02|\x03\x02|
9 s*|\x01\x00\x02\x00|\x01\x00\x02|
9 s*|\x01|\x02|

Fields that one record or neither has: a mark of 0 against none is no sameness.
9 |abc|x|
9 c|\x00||
9 c||\x00|
9 c|||
9 a3c|abc\x07|abc|
9 a3c|abc|abc\x07|
9 a3c|abc|abc|
9 a2a2a2|abcdef|abCd|
9 sI|\x05|\x05\x00|
9 cxc|\x01\x02\x03|\x01|
h |
h |Refusals and limits

Numbers 2, 3, 4 and 5.
9 cd|\x01|\x01|
9 c 3|\x01|\x01|
9 a32769|ab|ab|
9 a@|ab|ab|
9 cccc|abcd|abcd|
",
    )
}

pub fn reports(rt: &impl Print) -> io::Result<()> {
    run(
        rt,
        b"

Number 11: a report of fewer numbers than three a value field.
6 ac|x\x07|x\x08|report of 6
5 ac|x\x07|x\x08|report of 5
5 ac|||report of 5
0 x3|abc|x|report of 0
h |
h |What stays as lent

Slots that a reading does not set, bytes that no value covers and the rest of the report stay, and all of a refused call does.
w a2c|xy|xy\x07|
w a2z|xy|xy\x07|
w a*|xy|xyxyxyxyxyxyx|
v a2c|xy|xy\x07|
",
    )
}
