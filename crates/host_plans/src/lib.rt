// Layouts prepared once, for a C host. A plan is a run of numbers of 32 bits that the host owns. Few slots get a small
// array: clearing the large one costs more than a small record. (The passes are called from here, and not by way of
// `plans::pack` and `plans::read`: a call that hands on as many runs costs more than the checks of a small plan.)
#![tactic(auto)]

ghost use Rattle.std.specs.Prelude.{◌≡◌, ◌*◌, ◌≤◌, length};
ghost use Rattle.record.specs.Table.{slot_width, max_slots};
ghost use Rattle.host.specs.Numbers.{number_size};
ghost use Rattle.host_plans.specs.Calls.{HostPrepares, HostPacksPlan, HostReadsPlan};
ghost use Rattle.host_plans.specs.inside.Steps.{Packable, PlanPacks, PackJudged, PacksByPlan, PlanReady, ReadJudged, ReadsByPlan};

use layout::{Fields, Refusal, Refused};
use reader::checking;
use record::Answer;
use slot_table::sizes;

// Reads a layout once, into a plan for many records.
pub fn prepare(layout: &[u8], plan: &mut [u32], reply: &mut [u8]) -> u32
    ensures { HostPrepares layout.now plan.old plan.new reply.old reply.new result }
{
    if !host::reply_fits(reply.len()) {
        return Refusal::BadSize.number();
    }
    let a = plans::prepare(layout, plan);
    host::reply_with(reply, a)
}

// Packs by a plan of fields alone, with room for N numbers of slots.
fn pack_in<const N: usize>(plan: &[u32], slots: &[u8], area: &[u8], out: &mut [u8]) -> Answer
    requires { Packable plan.now slots.now out.old × (length slots.now ≤ N * number_size)
        × (N ≤ slot_width * max_slots) }
    ensures { PlanPacks plan.now slots.now area.now out.old out.new result }
{
    let mut room: [u32; N] = [0; N];
    let room = &mut room[..slots.len() / host::numbers::NUMBER_SIZE];
    host::numbers::decode(slots, room);
    packer::passes::pack(plan, room, area, out)
}

// What is left of a packing once the plan is judged.
fn packed(
    judged: Result<Fields, Refused>,
    plan: &[u32],
    slots: &[u8],
    area: &[u8],
    out: &mut [u8],
) -> Answer
    requires { PackJudged judged plan.now slots.now area.now out.old }
    ensures { PacksByPlan plan.now slots.now area.now out.old out.new result }
{
    let fields = match judged {
        Ok(fields) => fields,
        Err(e) => return Answer::refused(e.why, e.place as u32),
    };
    if slots.len() / host::SLOT_SIZE != fields.slots {
        return Answer::refused(Refusal::BadSlots, 0);
    }
    let plan = &plan[..fields.count];
    if host::few(slots.len()) {
        pack_in::<{ host::FEW_NUMBERS }>(plan, slots, area, out)
    } else {
        pack_in::<{ record::MAX_NUMBERS }>(plan, slots, area, out)
    }
}

// Packs the arguments into `out` by a plan, as `host_record::pack::pack` does by a layout.
pub fn pack(plan: &[u32], slots: &[u8], area: &[u8], out: &mut [u8], reply: &mut [u8]) -> u32
    ensures { HostPacksPlan plan.now slots.now area.now out.old out.new reply.old reply.new result }
{
    if !host::reply_fits(reply.len()) {
        return Refusal::BadSize.number();
    }
    if !host::slots_fit(slots.len()) {
        return host::reply_with(reply, Answer::refused(Refusal::BadSize, 0));
    }
    let numbers = slots.len() / host::numbers::NUMBER_SIZE;
    if !sizes::lengths_fit(plan.len(), numbers, out.len(), area.len()) {
        return host::reply_with(reply, Answer::refused(Refusal::BadSize, 0));
    }
    let a = packed(plans::judge(plan, true), plan, slots, area, out);
    host::reply_with(reply, a)
}

// Reads by the fields of a plan, with room for N numbers of slots: what stands there does not count. (The test of
// `reader::passes::read` stands here too: the fields are then written by a call from here, where it costs least.)
fn read_in<const N: usize>(
    plan: &[u32],
    fields: Fields,
    bytes: &[u8],
    slots: &mut [u8],
    area: &mut [u8],
    mark: usize,
    reply: &mut [u8],
) -> u32
    requires { PlanReady fields plan.now bytes.now slots.old area.old mark reply.old
        × (length slots.old ≤ N * number_size) × (N ≤ slot_width * max_slots) }
    ensures { ReadsByPlan plan.now bytes.now slots.old slots.new area.old area.new mark reply.old reply.new result }
{
    let mut room: [u32; N] = [0; N];
    let room = &mut room[..slots.len() / host::numbers::NUMBER_SIZE];
    let codes = &plan[..fields.count];
    let left = area.len() - mark;
    if checking::surely_fits(codes.len(), fields.slots, bytes.len(), room.len(), left) {
        let r = reading::fill(codes, bytes, room, area, mark);
        return host_record::read::read_back(slots, reply, room, r);
    }
    let r = reader::passes::read(codes, fields.slots, bytes, room, area, mark);
    host_record::read::read_back(slots, reply, room, r)
}

// What is left of a reading once the plan is judged.
fn read_judged(
    judged: Result<Fields, Refused>,
    plan: &[u32],
    bytes: &[u8],
    slots: &mut [u8],
    area: &mut [u8],
    mark: usize,
    reply: &mut [u8],
) -> u32
    requires { ReadJudged judged plan.now bytes.now slots.old area.old mark reply.old }
    ensures { ReadsByPlan plan.now bytes.now slots.old slots.new area.old area.new mark reply.old reply.new result }
{
    let fields = match judged {
        Ok(fields) => fields,
        Err(e) => return host::reply_long(reply, Answer::refused(e.why, e.place as u32), 0),
    };
    if host::few(slots.len()) {
        read_in::<{ host::FEW_NUMBERS }>(plan, fields, bytes, slots, area, mark, reply)
    } else {
        read_in::<{ record::MAX_NUMBERS }>(plan, fields, bytes, slots, area, mark, reply)
    }
}

// Reads a record by a plan, as `host_record::read::read` does by a layout.
pub fn read(
    plan: &[u32],
    bytes: &[u8],
    slots: &mut [u8],
    area: &mut [u8],
    mark: usize,
    reply: &mut [u8],
) -> u32
    ensures { HostReadsPlan plan.now bytes.now slots.old slots.new area.old area.new mark reply.old reply.new result }
{
    if !host::long_reply_fits(reply.len()) {
        return Refusal::BadSize.number();
    }
    if !host::slots_fit(slots.len()) {
        return host::reply_long(reply, Answer::refused(Refusal::BadSize, 0), 0);
    }
    let numbers = slots.len() / host::numbers::NUMBER_SIZE;
    if !checking::sizes_fit(plan.len(), numbers, bytes.len(), area.len(), mark) {
        return host::reply_long(reply, Answer::refused(Refusal::BadSize, 0), 0);
    }
    read_judged(
        plans::judge(plan, false),
        plan,
        bytes,
        slots,
        area,
        mark,
        reply,
    )
}
