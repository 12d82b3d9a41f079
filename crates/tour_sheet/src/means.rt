// Means of marked legs: a line for each call, with the table, the answer's three numbers, and the
// pattern of the mean or that no leg is marked.
use mean::marks::Marks;
use record::{MAX_AREA, MAX_NUMBERS, SLOT_WIDTH};
use std::io;
use tour_text::notation::Arguments;
use tour_text::print::{Answered, Lent};

fn show(rt: &impl Print, told: &[u8], slots: &[u32], area: &[u8]) -> io::Result<()> {
    let Marks { answer, mean } = mean::mean(slots, area);
    print!(rt; "mean{}{}: ", Lent(told), Answered(answer))?;
    match mean {
        Some(x) => println!(rt; "{:016x}", x.to_bits()),
        None => println!(rt; "no leg marked"),
    }
}

// The table that a text names.
fn example(rt: &impl Print, told: &[u8]) -> io::Result<()> {
    let all = Arguments::parse(told);
    show(rt, told, all.slots(), all.area())
}

// A table a line.
fn run(rt: &impl Print, list: &str) -> io::Result<()> {
    for line in list.lines() {
        example(rt, line.as_bytes())?;
    }
    Ok(())
}

// A leg that is not set changes the count alone, a leg of 0 the mean; quotients that are exact and that are not; a sum
// above 24 bits.
fn means(rt: &impl Print) -> io::Result<()> {
    run(
        rt,
        "{40} {60}
{40} - {60}
- {40} - - {60} -
{40} {0} {60}
{0}
{0} -
{1}
{7}
{1} {2}
{1} {0} {0}
{1} {1} {0}
{1000000}
{999999} {1000000}
{1000000} {1000000} {1000000} {1000000} {1000000} {1000000} {1000000} {1000000} {1000000} {1000000} {1000000} {1000000} {1000000} {1000000} {1000000} {1000000} {1000000}
",
    )
}

// Tables of legs that nobody marked, and the table of no slots.
fn unmarked(rt: &impl Print) -> io::Result<()> {
    run(
        rt,
        "-
- - -
",
    )?;
    example(rt, b"")?;
    show(rt, b"slot 0 4294967295 7", &[0, 4294967295, 7, 0], b"")?;
    show(
        rt,
        b"as many slots as can be, none set",
        &[0; MAX_NUMBERS],
        b"",
    )
}

// Numbers 8, 9 and 14; within a slot in that order, and slot by slot.
fn bad_legs(rt: &impl Print) -> io::Result<()> {
    run(
        rt,
        r#""40"
""
{40} "x"
{}
{40} - {1 2}
{1000001 5}
{-1}
{1000001}
{-9223372036854775808}
{5} {1000001} "x"
{5} "x" {1000001}
{5} {1 2} {-1}
"#,
    )
}

// A table over the eight bytes of the integer 50.
fn placed(rt: &impl Print, told: &[u8], slots: &[u32]) -> io::Result<()> {
    show(rt, told, slots, b"\x00\x00\x00\x00\x00\x00\x00\x32")
}

// Kind 3; number 8 for kind 4; number 7 for a kind, a start and a length.
fn bad_slots(rt: &impl Print) -> io::Result<()> {
    placed(rt, b"slot 3 0 1 over {50}", &[3, 0, 1, 0])?;
    placed(rt, b"slot 4 0 1 over {50}", &[4, 0, 1, 0])?;
    placed(rt, b"slot 5 0 1 over {50}", &[5, 0, 1, 0])?;
    placed(rt, b"slot 2 1 1 over {50}", &[2, 1, 1, 0])?;
    placed(
        rt,
        b"slots 2 0 1, 2 0 1, 5 0 1 over {50}",
        &[2, 0, 1, 0, 2, 0, 1, 0, 5, 0, 1, 0],
    )
}

// Number 7 comes before 8 and 9.
fn bad_ends(rt: &impl Print) -> io::Result<()> {
    placed(rt, b"slot 2 0 2 over {50}", &[2, 0, 2, 0])?;
    placed(rt, b"slot 1 8 1 over {50}", &[1, 8, 1, 0])?;
    placed(rt, b"slot 2 9 0 over {50}", &[2, 9, 0, 0])?;
    placed(rt, b"slot 2 8 0 over {50}", &[2, 8, 0, 0])
}

// Number 1, which comes before every slot.
fn sizes(rt: &(impl Print + AllocGlobal)) -> io::Result<()> {
    show(
        rt,
        b"a slot more than can be",
        &[4; MAX_NUMBERS + SLOT_WIDTH],
        b"",
    )?;
    show(rt, b"a number more than a slot", &[4; SLOT_WIDTH + 1], b"")?;
    let area = vec![in rt.alloc(); 0; MAX_AREA + 1]?;
    show(rt, b"area over its size", &[4; SLOT_WIDTH], &area)?;
    show(
        rt,
        b"slot 3 0 1 over eight bytes 80",
        &[3, 0, 1, 0],
        &[0x80; 8],
    )
}

fn refusals(rt: &(impl Print + AllocGlobal)) -> io::Result<()> {
    println!(rt; "\nRefusals and limits")?;
    bad_legs(rt)?;
    bad_slots(rt)?;
    bad_ends(rt)?;
    sizes(rt)
}

pub fn main(rt: &(impl Print + AllocGlobal)) -> io::Result<()> {
    println!(rt; "Means: table -> number, first, second: bits of the mean")?;
    means(rt)?;
    unmarked(rt)?;
    refusals(rt)
}
