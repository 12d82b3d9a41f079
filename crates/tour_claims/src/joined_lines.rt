// Records of two templates: a line for the two packed one after the other, and one for packing by
// their texts joined, each with the three numbers and all that a buffer of sixteen bytes aa then holds.
use joining::pack_both::pack_both;
use record::SLOT_WIDTH;
use std::io;
use tour_text::lists;
use tour_text::notation::Arguments;
use tour_text::print::{Answered, Hex, Lent, Short};

// Both lines: the first `cut` bytes of the joined text are the first template, and the first `own` numbers of the slots
// its own.
fn both(rt: &impl Print, layout: &[u8], cut: usize, own: usize, told: &[u8]) -> io::Result<()> {
    let all = Arguments::parse(told);
    if let Some((first, second)) = layout.split_at_checked(cut)
        && let Some((first_slots, second_slots)) = all.slots().split_at_checked(own)
    {
        let mut out = [0xaa; 16];
        let a = pack_both(
            first,
            first_slots,
            second,
            second_slots,
            all.area(),
            &mut out,
        );
        println!(rt;
            "both '{}' '{}'{}{}; output{}",
            Short(first),
            Short(second),
            Lent(told),
            Answered(a),
            Hex(&out)
        )?;
        let mut out = [0xaa; 16];
        let a = packer::pack(layout, all.slots(), all.area(), &mut out);
        println!(rt;
            "pack '{}'{}{}; output{}",
            Short(layout),
            Lent(told),
            Answered(a),
            Hex(&out)
        )?;
    }
    Ok(())
}

// The low half of a digit's byte is its number.
fn example(rt: &impl Print, slots: u8, layout: &[u8], rest: &[u8]) -> io::Result<()> {
    match rest {
        [cut, _, told @ ..] => {
            let own = usize::from(slots % 16) * SLOT_WIDTH;
            both(rt, layout, usize::from(cut % 16), own, told)
        }
        _ => Ok(()),
    }
}

// Examples: the number of slots that are the first template's, the texts joined, a bar, the number of bytes that are the
// first template's, and the arguments.
pub fn main(rt: &impl Print) -> io::Result<()> {
    lists::run(
        rt,
        br#"
h |Both, and joined: layouts, arguments -> number, first, second; output of sixteen bytes aa

A cover and a leg; stars and flags; spaces where the texts meet.
2 A4IuS2c|4 "Ada" {20260117} {17 4} {1}
1 a*xu2B*c*|5 "ok" "1011" {-1 7}
1 a2  S|3 "ok" {3}
h |
h |The empty layout
0 S2|0 {17 4}
1 S2|2 {17 4}
h |
h |Three

A cover and two legs, either pair of them joined first.
2 a2Sc|3 "ok" {17} {4}
1 a2Sc|2 "ok" {17} {4}
h |
h |X and @, of which nothing is claimed

What goes back goes into the first result, once the texts are joined.
1 a3@1a1|2 "abc" "d"
1 a3X2a1|2 "abc" "d"
h |
h |Refused, and no byte changed

The place of a refusal is one of the part.
0 zc|1 {1}
1 a2c|2 "ok" "no"
1 a9a9|2 "one" "two"
"#,
        |slots, layout, rest| example(rt, slots, layout, rest),
    )
}
