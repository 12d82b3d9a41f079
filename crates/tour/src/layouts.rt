// Layouts looked at before they are used: a line for each, with the three numbers: 0, slots, length of the shortest
// record; or the refusal and its place. Then what is proved of layouts: a line for each, with the four numbers of the
// answer. Then their fields: 0, fields, 0, and below it a line for each row, in which `-` stands for no count, no slot
// and what is open, and `*` for a star.
use describe::fields::fields;
use promises::Told;
use std::fmt::Formatter;
use std::{fmt, io};
use tour_text::lists;
use tour_text::print::{Answered, Escaped, Lent, Short};

fn show(rt: &impl Print, layout: &[u8], told: &[u8]) -> io::Result<()> {
    let a = describe::describe(layout);
    println!(rt; "describe '{}'{}{}", Short(layout), Lent(told), Answered(a))
}

// The four numbers of an answer about promises.
#[derive(Clone, Copy)]
struct Four(Told);

impl fmt::Display for Four {
    fn fmt<W: fmt::Write>(&self, f: &mut Formatter<W>) -> fmt::Result {
        let Told { answer, fourth } = self.0;
        write!(f, "{} {fourth}", Answered(answer))
    }
}

fn promises(rt: &impl Print, layout: &[u8], told: &[u8]) -> io::Result<()> {
    let t = promises::promises(layout);
    println!(rt; "promises '{}'{}{}", Short(layout), Lent(told), Four(t))
}

// Asks whether a new layout extends an old one.
fn extends(rt: &impl Print, old: &[u8], new: &[u8]) -> io::Result<()> {
    let t = promises::extends(old, new);
    println!(rt; "extends '{}|{}'{}", Escaped(old), Escaped(new), Four(t))
}

// The numbers of a row, each four bytes.
const ROW_NUMBERS: usize = 8;

const NUMBER_SIZE: usize = 4;

const ROW_SIZE: usize = ROW_NUMBERS * NUMBER_SIZE;

// A number of a row, or what stands for it.
#[derive(Clone, Copy)]
struct Number(u32);

impl fmt::Display for Number {
    fn fmt<W: fmt::Write>(&self, f: &mut Formatter<W>) -> fmt::Result {
        match self.0 {
            4294967295 => f.write_str("-"),
            4294967294 => f.write_str("*"),
            n => write!(f, "{n}"),
        }
    }
}

// The rows, each on a line of its own; the third number is a character.
#[derive(Clone, Copy)]
struct Rows<'a>(&'a [u8]);

impl fmt::Display for Rows<'_> {
    fn fmt<W: fmt::Write>(&self, f: &mut Formatter<W>) -> fmt::Result {
        let (numbers, _) = self.0.as_chunks::<NUMBER_SIZE>();
        for (i, bytes) in numbers.iter().enumerate() {
            let n = u32::from_be_bytes(*bytes);
            match i % ROW_NUMBERS {
                0 => write!(f, "\n  {}", Number(n))?,
                2 => write!(f, " {}", Escaped(&bytes[3..]))?,
                _ => write!(f, " {}", Number(n))?,
            }
        }
        Ok(())
    }
}

// The fields of a layout, in a run of bytes 170; and the byte after them.
fn list(rt: &impl Print, layout: &[u8], run: &mut [u8], told: &[u8]) -> io::Result<()> {
    let a = fields(layout, run);
    print!(rt; "fields '{}'{}{}", Short(layout), Lent(told), Answered(a))?;
    match run.split_at_checked(a.first as usize * ROW_SIZE) {
        Some((rows, [then, ..])) if a.number == 0 => {
            println!(rt; "{}\n  then {then}", Rows(rows))
        }
        _ => println!(rt; ""),
    }
}

// An example: `d` and a layout that is described, `f` and one whose fields are listed, `s` and one whose fields are
// listed in a run that holds one row, `p` and one whose promises are asked for, or `e`, an old layout and a new one.
fn example(rt: &impl Print, kind: u8, layout: &[u8], rest: &[u8]) -> io::Result<()> {
    match kind {
        b'd' => show(rt, layout, b""),
        b'p' => promises(rt, layout, b""),
        b'e' => extends(rt, layout, rest),
        b'f' => list(rt, layout, &mut [170; 16 * ROW_SIZE], b""),
        b's' => list(rt, layout, &mut [170; 2 * ROW_SIZE - 1], b"run of 63 bytes"),
        _ => Ok(()),
    }
}

fn run(rt: &impl Print, list: &[u8]) -> io::Result<()> {
    lists::run(
        rt,
        list,
        |kind, layout, rest| example(rt, kind, layout, rest),
    )
}

fn counts(rt: &impl Print) -> io::Result<()> {
    run(
        rt,
        b"
h |Layouts described: layout -> 0, slots, length
d |
d   |
d A8 S2|
d a8 A20 Su Iu c6|
d B9 H3 b|
d wW2i3|
d rQ2|
h |
h |Stars
d a*|
d a*S2b*|
d cu*x3|
h |
h |Moves

What goes back makes a record shorter than its fields, and what goes on makes it longer.
d a5X2a1|
d a5X*S|
d @10|
d a3@*a2|
d a*@*S|
d a5@2a1@*a3@10a1|
h |
h |Limits
",
    )
}

// Layouts of the full length, and one longer.
fn limits(rt: &impl Print) -> io::Result<()> {
    show(rt, &[b'x'; 256], b"layout of 256 bytes")?;
    show(rt, &[b'c'; 256], b"layout of 256 bytes")?;
    show(rt, &[b'x'; 257], b"layout of 257 bytes")
}

// A shortest record that is longer than a record may be; then layouts that packing would refuse.
fn refusals(rt: &impl Print) -> io::Result<()> {
    run(
        rt,
        b"
d w4096w4096|
h |
h |Refused: layout -> number, place, 0
d c3z|
d c 3|
d au*u|
d S5000000|
d a3cu5000000|
d @|
d x*|
d a2x*|
",
    )
}

// What layouts promise; 4294967295 stands for no place.
fn promised(rt: &impl Print) -> io::Result<()> {
    run(
        rt,
        b"
h |
h |Promises: layout -> 0, where it may not grow, where reading loses something, where it may not be joined
p a6 b8 Su|
p A8 S2|
p c x2 c|
p c  su*|
p c0 X c|
p r q|
p a32768|
p a32768 c|
p c @|
h |
h |Extends: old|new -> 0, fields of the old layout, fields added, 0; refused: number, place, 0, which layout
e A8 S2|A8 S2 S
e c3 su|c03su
e |
e S c|S c1
e S c|S\x20
e a2 c*|a2 c*
e a|a a32768
e w32768|w32768
e k|k
e c|c x*
",
    )?;
    limit(rt, &[b'c'; 64], b"64 fields")?;
    limit(rt, &[b'c'; 65], b"65 fields")
}

// A layout at the limit of slots: what it promises, and whether it is the empty layout with fields added.
fn limit(rt: &impl Print, layout: &[u8], size: &[u8]) -> io::Result<()> {
    promises(rt, layout, size)?;
    let t = promises::extends(b"", layout);
    println!(rt; "extends '|..'{}{}", Lent(size), Four(t))
}

// Fields: place and bytes in the text, type, flag, count, slot, position, bytes in the record.
fn listed(rt: &impl Print) -> io::Result<()> {
    run(
        rt,
        b"
h |
h |Fields listed: layout -> 0, fields, 0; place, length, type, flag, count, slot, position, bytes
f A8 S2|
f  a0 Su03x |
f b9H3q2rWI3|
h |
h |Moves
f a5X2a1@*a2|
f @5X3x2@*X*c|
f X9@u4Xu|
h |
h |Stars: what they decide is open
f a6 A12 Su  Su*X2 x* c @10 b12 @* X* c|
f @*a*@*c|
h |
h |Refused as reading would: layout -> number, place, 0; then for want of room
f c3z|
f a3cu5000000|
f @|
s c|
s cs|
s c@|
",
    )
}

// No field, and a layout of more fields than the run has rows.
fn rooms(rt: &impl Print) -> io::Result<()> {
    list(rt, b"", &mut [0; 0], b"no run")?;
    list(
        rt,
        &[b'c'; 256],
        &mut [170; 256 * ROW_SIZE - 1],
        b"run of 8191 bytes",
    )?;
    list(rt, &[b'c'; 257], &mut [170; 1], b"layout of 257 bytes")
}

pub fn main(rt: &impl Print) -> io::Result<()> {
    counts(rt)?;
    limits(rt)?;
    refusals(rt)?;
    promised(rt)?;
    listed(rt)?;
    rooms(rt)
}
