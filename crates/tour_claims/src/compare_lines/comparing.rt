// Calls on two tables and areas.
use record::{MAX_AREA, MAX_RECORD, SLOT_WIDTH};
use std::io;
use tour_text::print::{Answered, Hex, Lent, Numbers, Short};
use tour_text::values::{Table, Whole};

// What a call is lent for the values of one of the two records.
#[derive(Drop)]
struct Room<'a> {
    slots: &'a mut [u32],
    area: &'a mut [u8],
}

// Compares, and prints a line but for its end; `told` names what is lent besides.
fn show(
    rt: &impl Print,
    layout: &[u8],
    first: &[u8],
    second: &[u8],
    told: &[u8],
    one: Room,
    other: Room,
    report: &mut [u32],
) -> io::Result<()> {
    let Room {
        slots: first_slots,
        area: first_area,
    } = one;
    let Room {
        slots: second_slots,
        area: second_area,
    } = other;
    let a = compare::compare(
        layout,
        first,
        second,
        first_slots,
        first_area,
        second_slots,
        second_area,
        report,
    );
    print!(rt;
        "compare '{}'{} with{}{}{}; report{}",
        Short(layout),
        Hex(first),
        Hex(second),
        Lent(told),
        Answered(a),
        Numbers(report)
    )
}

// Compares into tables and areas of its own: three value fields at most.
pub fn own(
    rt: &impl Print,
    layout: &[u8],
    first: &[u8],
    second: &[u8],
    told: &[u8],
    report: &mut [u32],
) -> io::Result<()> {
    show(
        rt,
        layout,
        first,
        second,
        told,
        Room {
            slots: &mut [0; 3 * SLOT_WIDTH],
            area: &mut [0; 64],
        },
        Room {
            slots: &mut [0; 3 * SLOT_WIDTH],
            area: &mut [0; 64],
        },
        report,
    )?;
    println!(rt; "")
}

// Compares a record of two value fields with itself.
fn same(rt: &impl Print, told: &[u8], one: Room, other: Room) -> io::Result<()> {
    show(
        rt,
        b"a2c",
        b"xy\x07",
        b"xy\x07",
        told,
        one,
        other,
        &mut [9; 6],
    )?;
    println!(rt; "")
}

fn tables(rt: &impl Print, told: &[u8], first: &mut [u32], second: &mut [u32]) -> io::Result<()> {
    let one = Room {
        slots: first,
        area: &mut [0; 64],
    };
    let other = Room {
        slots: second,
        area: &mut [0; 64],
    };
    same(rt, told, one, other)
}

// Number 5, of either table.
pub fn short_tables(rt: &impl Print) -> io::Result<()> {
    tables(rt, b"two slots each", &mut [0; 8], &mut [0; 8])?;
    tables(rt, b"one slot first", &mut [0; 4], &mut [0; 8])?;
    tables(rt, b"one slot second", &mut [0; 8], &mut [0; 4])
}

// Number 1, of either table; of the second after number 5 of the first.
pub fn ragged_tables(rt: &impl Print) -> io::Result<()> {
    tables(rt, b"a number more first", &mut [0; 9], &mut [0; 8])?;
    tables(rt, b"a number more second", &mut [0; 8], &mut [0; 9])?;
    tables(
        rt,
        b"one slot first, a number more second",
        &mut [0; 4],
        &mut [0; 5],
    )
}

fn areas(rt: &impl Print, told: &[u8], first: &mut [u8], second: &mut [u8]) -> io::Result<()> {
    let one = Room {
        slots: &mut [0; 2 * SLOT_WIDTH],
        area: first,
    };
    let other = Room {
        slots: &mut [0; 2 * SLOT_WIDTH],
        area: second,
    };
    same(rt, told, one, other)
}

// Number 11, of either area.
pub fn short_areas(rt: &impl Print) -> io::Result<()> {
    areas(rt, b"areas of 10 bytes", &mut [0; 10], &mut [0; 10])?;
    areas(rt, b"areas of 9 and 10 bytes", &mut [0; 9], &mut [0; 10])?;
    areas(rt, b"areas of 10 and 9 bytes", &mut [0; 10], &mut [0; 9])
}

// Number 1, of the second area, after number 11 of the first.
pub fn long_areas(rt: &(impl Print + AllocGlobal)) -> io::Result<()> {
    let mut long = vec![in rt.alloc(); 0; MAX_AREA + 1]?;
    areas(rt, b"second area over its size", &mut [0; 10], &mut long)?;
    areas(
        rt,
        b"first area of 9 bytes, second over its size",
        &mut [0; 9],
        &mut long,
    )
}

// Records at their limit and above: number 1, after every refusal of the first.
pub fn records(rt: &(impl Print + AllocGlobal)) -> io::Result<()> {
    let x = vec![in rt.alloc(); b'x'; MAX_RECORD]?;
    let y = vec![in rt.alloc(); b'y'; MAX_RECORD]?;
    own(
        rt,
        b"@32767a",
        &x,
        &y,
        b"records of the longest size",
        &mut [9; 3],
    )?;
    let long = vec![in rt.alloc(); b'x'; MAX_RECORD + 1]?;
    own(rt, b"a", &long, b"x", b"a byte more first", &mut [9; 3])?;
    own(rt, b"a", b"x", &long, b"a byte more second", &mut [9; 3])?;
    own(rt, b"a9z", b"x", &long, b"a byte more second", &mut [9; 3])
}

// Compares into slots of 9 and areas of bytes aa, and prints all that they then hold.
pub fn whole(
    rt: &impl Print,
    layout: &[u8],
    first: &[u8],
    second: &[u8],
    report: &mut [u32],
) -> io::Result<()> {
    let mut first_slots = [9; 2 * SLOT_WIDTH];
    let mut second_slots = [9; 2 * SLOT_WIDTH];
    let mut first_area = [0xaa; 12];
    let mut second_area = [0xaa; 12];
    let one = Room {
        slots: &mut first_slots,
        area: &mut first_area,
    };
    let other = Room {
        slots: &mut second_slots,
        area: &mut second_area,
    };
    show(rt, layout, first, second, b"", one, other, report)?;
    println!(rt;
        "{}{}",
        Whole(Table {
            slots: &first_slots,
            area: &first_area
        }),
        Whole(Table {
            slots: &second_slots,
            area: &second_area
        })
    )
}
