// Layouts prepared once: a layout is read into a plan, a run of numbers with one for each field, and records are packed
// and read by the plan. A plan may hold any numbers: each call checks them.
#![tactic(auto)]

ghost use Rattle.std.specs.Prelude.{◌≡◌, ◌≤◌, length};
ghost use Rattle.layout.specs.Layout.{max_layout};
ghost use Rattle.layout.specs.inside.Parsing.{Parses};
ghost use Rattle.plans.specs.Plans.{plan_fields, prepare, pack_plan, read_plan};
ghost use Rattle.plans.specs.inside.Judging.{Judges};

use layout::{Fields, Refusal, Refused, parser, scanner};
use reader::checking;
use record::{Answer, ReadAnswer};
use slot_table::sizes;

// The number of a type that no type character has, and the first number of a plan whose count is over the limit.
const SPARE: u32 = layout::INT_8_BIG;

const END_COUNT: u32 = (scanner::LAST_COUNT + 1) * layout::COUNT_UNIT;

// Judges one number of a plan. The numbers of types that take a slot are looked at first, and by themselves: they are
// what plans are made of.
fn judge_one(packing: bool, w: u32) -> Result<(), Refusal>
    ensures { Judges packing w result }
{
    let d = w % layout::FLAG_UNIT;
    if d <= layout::LAST_DATA {
        if d == SPARE {
            return Err(Refusal::BadType);
        }
        if END_COUNT <= w {
            return Err(Refusal::BadCount);
        }
        return Ok(());
    }
    if d < layout::SKIP || layout::LAST_TYPE < d {
        return Err(Refusal::BadType);
    }
    if END_COUNT <= w {
        return Err(Refusal::BadCount);
    }
    if !parser::has_meaning(packing, d, w / layout::COUNT_UNIT) {
        return Err(Refusal::BadMove);
    }
    Ok(())
}

// The fields of a plan: how many there are and how many of them take a slot, or the first refusal.
pub fn judge(plan: &[u32], packing: bool) -> Result<Fields, Refused>
    requires { length plan.now ≤ max_layout }
    ensures { Parses (plan_fields packing plan.now) result plan.now }
{
    let mut slots: usize = 0;
    for (i, &w) in plan.iter().enumerate() {
        if let Err(why) = judge_one(packing, w) {
            return Err(why.at(i));
        }
        slots += layout::slots_in(w % layout::FLAG_UNIT);
    }
    Ok(Fields {
        count: plan.len(),
        slots,
    })
}

// Reads a layout into the front of the run, as a plan. A refusal changes nothing.
pub fn prepare(layout: &[u8], run: &mut [u32]) -> Answer
    ensures { record { answer = result; plan = run.new } ≡ prepare layout.now run.old }
{
    if layout::MAX_LAYOUT < layout.len() {
        return Answer::refused(Refusal::BadSize, 0);
    }
    let mut codes: [u32; layout::MAX_LAYOUT] = [0; layout::MAX_LAYOUT];
    let fields = match parser::parse(layout, false, &mut codes) {
        Ok(fields) => fields,
        Err(e) => return Answer::refused(e.why, e.place as u32),
    };
    let n = fields.count;
    if run.len() < n {
        return Answer::refused(Refusal::NoRoom, 0);
    }
    run[..n].copy_from_slice(&codes[..n]);
    Answer::accepted(n as u32, fields.slots as u32)
}

// Packs the arguments into the output by a plan, as `packer::pack` does by a layout. A refusal changes nothing.
pub fn pack(plan: &[u32], slots: &[u32], area: &[u8], output: &mut [u8]) -> Answer
    ensures { record { answer = result; output = output.new }
        ≡ pack_plan plan.now slots.now area.now output.old }
{
    if !sizes::lengths_fit(plan.len(), slots.len(), output.len(), area.len()) {
        return Answer::refused(Refusal::BadSize, 0);
    }
    let p = judge(plan, true);
    packer::packed(p, plan, slots, area, output)
}

// Reads a record by a plan, as `reader::read` does by a layout. A refusal changes nothing.
pub fn read(
    plan: &[u32],
    bytes: &[u8],
    slots: &mut [u32],
    area: &mut [u8],
    mark: usize,
) -> ReadAnswer
    ensures { record { answer = result; slots = slots.new; area = area.new }
        ≡ read_plan plan.now bytes.now slots.old area.old mark }
{
    if !checking::sizes_fit(plan.len(), slots.len(), bytes.len(), area.len(), mark) {
        return ReadAnswer::refused(Refusal::BadSize, 0);
    }
    match judge(plan, false) {
        Ok(fields) => {
            let plan = &plan[..fields.count];
            reader::passes::read(plan, fields.slots, bytes, slots, area, mark)
        }
        Err(e) => ReadAnswer::refused(e.why, e.place as u32),
    }
}
