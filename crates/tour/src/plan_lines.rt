// Layouts prepared once: a line for each call, with the layout that was prepared or the numbers of the plan, the
// arguments or the record, the answer's numbers, and the bytes or the values.
use layout::MAX_LAYOUT;
use record::SLOT_WIDTH;
use std::io;
use tour_text::lists;
use tour_text::notation::Arguments;
use tour_text::print::{Answered, AnsweredRead, Hex, Lent, Numbers, Short, Stored};
use tour_text::values::{Left, Table};

// Prepares a layout into the run `room`, and prints the line.
fn prepare(rt: &impl Print, layout: &[u8], room: &mut [u32]) -> io::Result<()> {
    let a = plans::prepare(layout, room);
    println!(rt; "prepare '{}'{}", Short(layout), Answered(a))
}

// The numbers of the plan that a layout has; none where it is refused.
fn plan<'a>(layout: &[u8], room: &'a mut [u32]) -> &'a [u32] {
    let a = plans::prepare(layout, room);
    match room.get(..a.first as usize) {
        Some(plan) if a.number == 0 => plan,
        _ => &[],
    }
}

// Packs the arguments that a text names, by a layout's plan.
fn pack(rt: &impl Print, layout: &[u8], told: &[u8]) -> io::Result<()> {
    let all = Arguments::parse(told);
    let mut room = [0; MAX_LAYOUT];
    let mut out = [0; 48];
    let a = plans::pack(plan(layout, &mut room), all.slots(), all.area(), &mut out);
    println!(rt;
        "pack '{}'{}{}{}",
        Short(layout),
        Lent(told),
        Answered(a),
        Stored(a, &out)
    )
}

// Reads into three slots that are not set, by a layout's plan.
fn read(rt: &impl Print, layout: &[u8], bytes: &[u8]) -> io::Result<()> {
    let mut room = [0; MAX_LAYOUT];
    let mut slots = [0; 3 * SLOT_WIDTH];
    let mut area = [7; 32];
    let r = plans::read(plan(layout, &mut room), bytes, &mut slots, &mut area, 0);
    println!(rt;
        "read '{}'{}{}{}",
        Short(layout),
        Hex(bytes),
        AnsweredRead(r),
        Left(
            r.answer.number,
            Table {
                slots: &slots,
                area: &area
            }
        )
    )
}

// Packs no slots and reads no bytes by any numbers.
fn forged(rt: &impl Print, plan: &[u32]) -> io::Result<()> {
    let mut slots = [0; SLOT_WIDTH];
    let mut area = [0; 8];
    let mut out = [0; 8];
    let a = plans::pack(plan, &[], &area, &mut out);
    let r = plans::read(plan, b"", &mut slots, &mut area, 0);
    println!(rt; "plan{}{}{}", Numbers(plan), Answered(a), AnsweredRead(r))
}

fn example(rt: &impl Print, kind: u8, layout: &[u8], rest: &[u8]) -> io::Result<()> {
    match kind {
        b'r' => read(rt, layout, rest),
        b's' => prepare(rt, layout, &mut [0; 2]),
        b'm' => prepare(rt, layout, &mut [0; MAX_LAYOUT]),
        _ => pack(rt, layout, rest),
    }
}

// Examples: `m`, a layout and a bar to prepare it into a long run, `s` into one of two numbers; `p`, a layout, a bar and
// the arguments to pack by its plan; or `r`, a layout, a bar and the record to read by it.
pub fn main(rt: &impl Print) -> io::Result<()> {
    lists::run(
        rt,
        b"
h |Layouts prepared: numbers of the plan, slots
m |
m a6 A12 Su Su Su|
m a8 x2 c X* @10 b12|
m x* a|
s c c|
s c c c|
s |
h |
h |Refused as reading refuses
m a t|
m cu032769|
m a @|
s c c c z|
h |
h |Packing by a plan
p a4 Su c2|\"Ada\" {600} {1 -2}
p a*x2@8c|\"Ada\" {7}
p c|{300}
p c|
p c|{1} {2}
p a|{1}
p c|-
p X x* c|{1}
h |
h |Reading by a plan: short records leave slots as they were
r a3 Su c|Ada\x02\x58\xff
r a3 Su c|Ada\x02
r a3 Su c|
r x* X2 a|Adam
r a20|Adam
r c c c c|\x01\x02
h |
h |Any numbers as a plan: packing, then reading
",
        |kind, layout, rest| example(rt, kind, layout, rest),
    )?;
    for n in [25, 255, 26, 16778776, 16778778, 4294967295] {
        forged(rt, &[n])?;
    }
    forged(rt, &[25, 7])?;
    forged(rt, &[26, 7])?;
    forged(rt, &[25; MAX_LAYOUT])?;
    forged(rt, &[25; MAX_LAYOUT + 1])
}
