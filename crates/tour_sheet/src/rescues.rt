// Damaged sheets rescued: a line for each call, with what it is lent, the answer's four numbers,
// and what it left.
use record::{MAX_AREA, MAX_NUMBERS, MAX_SLOTS, SLOT_WIDTH};
use rescue::fill::Rescued;
use std::fmt::Formatter;
use std::{fmt, io};
use tour_text::print::{Hex, Lent};
use tour_text::values::{Left, Table, Whole};

// The four numbers of an answer.
#[derive(Clone, Copy)]
struct Four(Rescued);

impl fmt::Display for Four {
    fn fmt<W: fmt::Write>(&self, f: &mut Formatter<W>) -> fmt::Result {
        let Rescued {
            number,
            first,
            second,
            third,
        } = self.0;
        write!(f, " -> {number} {first} {second} {third}")
    }
}

// Rescues, and prints the line; `told` names what is lent besides.
fn show(
    rt: &impl Print,
    sheet: &[u8],
    told: &[u8],
    legs: usize,
    slots: &mut [u32],
    area: &mut [u8],
    mark: usize,
) -> io::Result<()> {
    let a = rescue::rescue(sheet, legs, slots, area, mark);
    println!(rt;
        "rescue{}{}{}{}",
        Hex(sheet),
        Lent(told),
        Four(a),
        Left(a.number, Table { slots, area })
    )
}

// Three legs, into three slots that are not set.
fn three(rt: &impl Print, sheet: &[u8]) -> io::Result<()> {
    show(rt, sheet, b"", 3, &mut [0; 3 * SLOT_WIDTH], &mut [0; 16], 0)
}

// The sheet's first bytes, each number of them, as of a file that was half written.
fn cuts(rt: &impl Print, sheet: &[u8]) -> io::Result<()> {
    for end in 0..sheet.len() {
        three(rt, &sheet[..end])?;
    }
    three(rt, sheet)
}

// Bytes of the request's own sheet that were damaged: the header's length, an entry's length, and a kind. What follows
// a wrong entry is dropped.
fn damages(rt: &impl Print) -> io::Result<()> {
    three(
        rt,
        b"\x01\xff\xff\x00\x01\x00\x00\x03\x01OK\x00\x09\x02\xff\xff\xff\xff\xff\xff\xff\xfe",
    )?;
    three(
        rt,
        b"\x01\x00\x00\x00\x01\x00\x00\x03\x01OK\x00\x09\x02\xff\xff\xff\xff\xff\xff\xff\xfe",
    )?;
    three(
        rt,
        b"\x01\x00\x13\x00\x02\x00\x00\x03\x01OK\x00\x09\x02\xff\xff\xff\xff\xff\xff\xff\xfe",
    )?;
    three(
        rt,
        b"\x01\x00\x13\x00\x01\x00\x00\x03\x09OK\x00\x09\x02\xff\xff\xff\xff\xff\xff\xff\xfe",
    )?;
    three(
        rt,
        b"\x01\x00\x13\x00\x01\x00\x00\x03\x01OK\x00\x0a\x02\xff\xff\xff\xff\xff\xff\xff\xfe",
    )?;
    three(
        rt,
        b"\x01\x00\x13\x00\x01\x00\x00\x03\x02OK\x00\x09\x02\xff\xff\xff\xff\xff\xff\xff\xfe",
    )?;
    three(
        rt,
        b"\x01\x00\x13\x00\x01\x00\x00\x03\x01OK\x00\x09\x02\xff\xff\xff\xff\xff\xff\xff\xfejunk",
    )
}

// Version 2, which the fitting rule does not bind: a header of five bytes, whole and cut, and lengths of four.
fn second_versions(rt: &impl Print) -> io::Result<()> {
    three(rt, b"\x02\x00\x00\x00\x06\x00\x00\x00\x02\x01x")?;
    three(rt, b"\x02\x00\x00\x00\x06\x00\x00\x00\x02\x01")?;
    three(rt, b"\x02\x00\x00\x00\x06\x00\x00\x00\x01\x00x")?;
    three(rt, b"\x02\x00\x00\x00\x06")?;
    three(rt, b"\x02\x00\x00\x00")?;
    three(rt, b"\x02")
}

// Two strings and one that is not set, for `legs` legs, into three slots of nines and eight bytes aa from the mark 1
// on; prints all that they then hold.
fn whole(rt: &impl Print, legs: usize) -> io::Result<()> {
    let mut slots = [9; 3 * SLOT_WIDTH];
    let mut area = [0xaa; 8];
    let sheet = b"\x01\x00\x0b\x00\x03\x01xy\x00\x02\x01z\x00\x01\x00";
    let a = rescue::rescue(sheet, legs, &mut slots, &mut area, 1);
    println!(rt;
        "rescue into slots of 9, eight bytes aa, mark 1, legs {legs}{}{}",
        Four(a),
        Whole(Table {
            slots: &slots,
            area: &area
        })
    )
}

// Slots past the legs and bytes that no kept value covers stay as lent, and all of a refused call does.
fn kept(rt: &impl Print) -> io::Result<()> {
    println!(rt; "\nAll that a rescue leaves")?;
    for legs in [0, 1, 2, 3, 4, 65] {
        whole(rt, legs)?;
    }
    Ok(())
}

// An integer and a string in an area of eight bytes, for `legs` legs.
fn integer(rt: &impl Print, told: &[u8], legs: usize, mark: usize) -> io::Result<()> {
    show(
        rt,
        b"\x01\x00\x0f\x00\x09\x02\x00\x00\x00\x00\x00\x00\x00\x07\x00\x02\x01x",
        told,
        legs,
        &mut [0; 2 * SLOT_WIDTH],
        &mut [0; 8],
        mark,
    )
}

// Number 11, which only what is kept can cause, and a mark above the area: number 1.
fn marks(rt: &impl Print) -> io::Result<()> {
    integer(rt, b"1 leg, mark 0, area of 8 bytes", 1, 0)?;
    integer(rt, b"2 legs, mark 0, area of 8 bytes", 2, 0)?;
    integer(rt, b"0 legs, mark 8, area of 8 bytes", 0, 8)?;
    integer(rt, b"0 legs, mark 9, area of 8 bytes", 0, 9)?;
    integer(rt, b"3 legs, 2 slots, mark 8, area of 8 bytes", 3, 8)
}

// A sheet's first byte alone, for `legs` legs.
fn first(rt: &impl Print, sheet: &[u8], told: &[u8], legs: usize) -> io::Result<()> {
    show(rt, sheet, told, legs, &mut [0; SLOT_WIDTH], &mut [0; 8], 0)
}

// Numbers 1, 13 and 5 in that order. 4,294,967,299 legs are not 3.
fn orders(rt: &impl Print) -> io::Result<()> {
    first(rt, b"\x07", b"1 leg", 1)?;
    first(rt, b"\x07", b"2 legs, 1 slot", 2)?;
    first(rt, b"\x07", b"65 legs, 1 slot", 65)?;
    first(rt, b"\x01", b"1 leg", 1)?;
    first(rt, b"\x01", b"2 legs, 1 slot", 2)?;
    first(rt, b"\x01", b"4294967297 legs", 4294967297)
}

// A sheet of no bytes, for one leg.
fn empty(rt: &impl Print, told: &[u8], slots: &mut [u32], area: &mut [u8]) -> io::Result<()> {
    show(rt, b"", told, 1, slots, area, 0)
}

// Sizes at their limits and above.
fn sizes(rt: &(impl Print + AllocGlobal)) -> io::Result<()> {
    let sheet = vec![in rt.alloc(); 1; MAX_AREA]?;
    let told = b"a sheet as long as an area, 64 legs";
    let mut area = vec![in rt.alloc(); 0; MAX_AREA]?;
    show(
        rt,
        &sheet,
        told,
        MAX_SLOTS,
        &mut [0; MAX_NUMBERS],
        &mut area,
        0,
    )?;
    empty(
        rt,
        b"a slot more than can be",
        &mut [0; MAX_NUMBERS + SLOT_WIDTH],
        &mut [0; 8],
    )?;
    empty(
        rt,
        b"a number more than a slot",
        &mut [0; SLOT_WIDTH + 1],
        &mut [0; 8],
    )?;
    let mut area = vec![in rt.alloc(); 0; MAX_AREA + 1]?;
    empty(rt, b"area over its size", &mut [0; SLOT_WIDTH], &mut area)
}

pub fn main(rt: &(impl Print + AllocGlobal)) -> io::Result<()> {
    println!(rt;
        "Rescues for three legs: sheet -> number, kept, cleared, dropped: values. Every cut of a sheet"
    )?;
    cuts(
        rt,
        b"\x01\x00\x13\x00\x01\x00\x00\x03\x01OK\x00\x09\x02\xff\xff\xff\xff\xff\xff\xff\xfe",
    )?;
    println!(rt; "\nDamaged bytes")?;
    damages(rt)?;
    second_versions(rt)?;
    kept(rt)?;
    println!(rt; "\nRefusals and limits")?;
    marks(rt)?;
    orders(rt)?;
    sizes(rt)
}
