// Packing: a line for each call, with the layout, what it is lent, the answer's three numbers and the bytes of the
// result.
use record::{MAX_AREA, MAX_NUMBERS, SLOT_WIDTH};
use std::io;
use tour_text::notation::Arguments;
use tour_text::print::{Answered, Hex, Lent, Short, Stored};

// Packs, and prints the line; `told` names what is lent.
fn show(
    rt: &impl Print,
    layout: &[u8],
    told: &[u8],
    slots: &[u32],
    area: &[u8],
    output: &mut [u8],
) -> io::Result<()> {
    let a = packer::pack(layout, slots, area, output);
    println!(rt;
        "pack '{}'{}{}{}",
        Short(layout),
        Lent(told),
        Answered(a),
        Stored(a, output)
    )
}

// Packs into eight bytes aa, and prints all that they then hold.
pub fn whole(rt: &impl Print, layout: &[u8]) -> io::Result<()> {
    let mut output = [0xaa; 8];
    let a = packer::pack(layout, &[1, 0, 2, 0], b"xy", &mut output);
    println!(rt;
        "pack '{}' slot 1 0 2, output of eight bytes aa{}; output{}",
        Short(layout),
        Answered(a),
        Hex(&output)
    )
}

// Packs into 4096 bytes.
fn fresh(
    rt: &(impl Print + AllocGlobal),
    layout: &[u8],
    told: &[u8],
    slots: &[u32],
    area: &[u8],
) -> io::Result<()> {
    let mut output = vec![in rt.alloc(); 0; 4096]?;
    show(rt, layout, told, slots, area, &mut output)
}

// Packs the arguments that a text names.
pub fn example(rt: &(impl Print + AllocGlobal), layout: &[u8], told: &[u8]) -> io::Result<()> {
    let all = Arguments::parse(told);
    fresh(rt, layout, told, all.slots(), all.area())
}

// A digit of a text: the low half of its byte.
pub fn digit(text: &[u8], at: usize) -> u8 {
    text.get(at).map_or(0, |b| b % 16)
}

// Packs a slot over an area of two bytes.
pub fn slot(
    rt: &(impl Print + AllocGlobal),
    layout: &[u8],
    told: &[u8],
    slot: [u32; SLOT_WIDTH],
) -> io::Result<()> {
    fresh(rt, layout, told, &slot, b"xy")
}

// Packs the slot whose three digits a text names.
pub fn placed(rt: &(impl Print + AllocGlobal), layout: &[u8], told: &[u8]) -> io::Result<()> {
    let [kind, start, length] = [5, 7, 9].map(|at| u32::from(digit(told, at)));
    slot(rt, layout, told, [kind, start, length, 0])
}

pub fn unsigned(rt: &(impl Print + AllocGlobal), layout: &[u8], told: &[u8]) -> io::Result<()> {
    fresh(rt, layout, told, &[3, 0, 1, 0], &510u64.to_be_bytes())
}

// Packs a string of as many bytes as a text names, into an output of a size.
pub fn output(
    rt: &(impl Print + AllocGlobal),
    layout: &[u8],
    told: &[u8],
    size: usize,
) -> io::Result<()> {
    let slot = [1, 0, u32::from(digit(told, 9)), 0];
    let mut output = vec![in rt.alloc(); 0; size]?;
    show(rt, layout, told, &slot, b"xy", &mut output)
}

// Number 1: layouts, slots and areas at their limits and one above.
pub fn sizes(rt: &(impl Print + AllocGlobal)) -> io::Result<()> {
    fresh(rt, &[b'x'; 256], b"layout of 256 bytes", &[], b"")?;
    fresh(rt, &[b'x'; 257], b"layout of 257 bytes", &[], b"")?;
    fresh(
        rt,
        &[b'a'; 64],
        b"64 slots 1 1 1 1",
        &[1; MAX_NUMBERS],
        b"xy",
    )?;
    fresh(
        rt,
        &[b'a'; 65],
        b"65 slots 1 1 1 1",
        &[1; MAX_NUMBERS + SLOT_WIDTH],
        b"xy",
    )?;
    fresh(rt, b"a", b"five numbers", &[1; 5], b"xy")?;
    let last = [1, 524287, 1, 0];
    let area = vec![in rt.alloc(); b'z'; MAX_AREA]?;
    fresh(
        rt,
        b"a",
        b"slot 1 524287 1, area of 524288 bytes",
        &last,
        &area,
    )?;
    let area = vec![in rt.alloc(); b'z'; MAX_AREA + 1]?;
    fresh(
        rt,
        b"a",
        b"slot 1 524287 1, area of 524289 bytes",
        &last,
        &area,
    )
}
