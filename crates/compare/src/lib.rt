// Two copies of one record compared by their layout: for each value field whether both show the same value, and if not
// where and how far they differ. Both readings are checked before anything is written.
#![tactic(auto)]

ghost use Rattle.compare.specs.Comparing.{Compares};
ghost use Rattle.compare.specs.inside.Steps.{LayoutOpened};

use layout::{Refusal, parser};
use reader::checking;
use record::Answer;
use report::{REPORT_WIDTH, Side};

// Two values by themselves.
pub mod difference;
// The findings of the report.
pub mod report;

// What is left of a comparison once the layout is read, and what the first reading is lent keeps to its size: the codes
// are the fields of the layout, of which `taken` take a slot. (Tables and areas come one by one, as `compare` is given
// them, whose contract names each: a struct of them would be put together for this one call.)
fn compare_codes(
    codes: &[u32],
    taken: usize,
    layout: &[u8],
    first: &[u8],
    second: &[u8],
    first_slots: &mut [u32],
    first_area: &mut [u8],
    second_slots: &mut [u32],
    second_area: &mut [u8],
    report: &mut [u32],
) -> Answer
    requires { LayoutOpened taken codes.now layout.now first.now first_slots.old first_area.old }
    ensures { Compares layout.now first.now second.now first_slots.old first_slots.new first_area.old first_area.new second_slots.old second_slots.new second_area.old second_area.new report.old report.new result }
{
    if let Err(e) = checking::fits(codes, taken, first, first_slots.len(), first_area.len()) {
        return Answer::refused(e.why, e.place as u32);
    }
    if !checking::sizes_fit(
        layout.len(),
        second_slots.len(),
        second.len(),
        second_area.len(),
        0,
    ) {
        return Answer::refused(Refusal::BadSize, 0);
    }
    if let Err(e) = checking::fits(codes, taken, second, second_slots.len(), second_area.len()) {
        return Answer::refused(e.why, e.place as u32);
    }
    if report.len() / REPORT_WIDTH < taken {
        return Answer::refused(Refusal::NoRoom, 0);
    }
    let p = reading::fill(codes, first, first_slots, first_area, 0);
    let q = reading::fill(codes, second, second_slots, second_area, 0);
    let first_side = Side {
        slots: first_slots,
        area: first_area,
        set: p.answer.first as usize,
    };
    let second_side = Side {
        slots: second_slots,
        area: second_area,
        set: q.answer.first as usize,
    };
    report::write(report, taken, &first_side, &second_side);
    Answer::accepted(taken as u32, 0)
}

// Reads both copies, each into its own table and area, and writes three numbers for each value field into the report. A
// refusal changes nothing.
pub fn compare(
    layout: &[u8],
    first: &[u8],
    second: &[u8],
    first_slots: &mut [u32],
    first_area: &mut [u8],
    second_slots: &mut [u32],
    second_area: &mut [u8],
    report: &mut [u32],
) -> Answer
    ensures { Compares layout.now first.now second.now first_slots.old first_slots.new first_area.old first_area.new second_slots.old second_slots.new second_area.old second_area.new report.old report.new result }
{
    if !checking::sizes_fit(
        layout.len(),
        first_slots.len(),
        first.len(),
        first_area.len(),
        0,
    ) {
        return Answer::refused(Refusal::BadSize, 0);
    }
    let mut codes: [u32; layout::MAX_LAYOUT] = [0; layout::MAX_LAYOUT];
    let fields = match parser::parse(layout, false, &mut codes) {
        Ok(fields) => fields,
        Err(e) => return Answer::refused(e.why, e.place as u32),
    };
    compare_codes(
        &codes[..fields.count],
        fields.slots,
        layout,
        first,
        second,
        first_slots,
        first_area,
        second_slots,
        second_area,
        report,
    )
}
