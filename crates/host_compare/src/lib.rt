// Comparing two copies of a record for a C host.
#![tactic(auto)]

ghost use Rattle.std.specs.Prelude.{◌≡◌, ◌≤◌, ◌*◌, ◌/◌, ◌%◌, min, length};
ghost use Rattle.record.specs.Table.{slot_width, max_slots};
ghost use Rattle.host.specs.Numbers.{number_size, numbers_in};
ghost use Rattle.host.specs.Host.{slot_size, reply_size};
ghost use Rattle.compare.specs.Difference.{report_width};
ghost use Rattle.host_compare.specs.Calls.{CompareServed, HostCompares};
ghost use Rattle.host_compare.specs.inside.Steps.{SecondRefused};

use layout::Refusal;
use reader::checking;
use record::Answer;

// What a comparing leaves, written back as bytes.
mod report;

// The numbers of a report that has a finding for every slot, and for each of eight.
const MAX_REPORT: usize = compare::report::REPORT_WIDTH * record::MAX_SLOTS;

const FEW_FINDINGS: usize = compare::report::REPORT_WIDTH * 8;

// The second table is cut or too long: the answer to the first reading's refusals, and else 1. (A check looks at the
// number of the slots alone.)
fn refuse_second(
    layout: &[u8],
    first: &[u8],
    first_slots: &[u8],
    first_area: &[u8],
    reply: &mut [u8],
) -> u32
    requires { (length reply.old ≡ reply_size) × (length first_slots.now ≤ slot_size * max_slots) }
    ensures { SecondRefused layout.now first.now (numbers_in first_slots.now) first_area.now reply.old reply.new result }
{
    let room: [u32; record::MAX_NUMBERS] = [0; record::MAX_NUMBERS];
    let room = &room[..first_slots.len() / host::numbers::NUMBER_SIZE];
    let a = checking::check(layout, first, room, first_area, 0);
    // An answer is what C reads: its number is 0 where nothing is refused.
    if a.number != 0 {
        return host::reply_with(reply, a);
    }
    host::reply_with(reply, Answer::refused(Refusal::BadSize, 0))
}

// Compares, with room for N numbers of either table's slots and M numbers of findings, and writes back what it left.
// (What is lent comes one by one, as the C interface gives it.)
fn compare_in<const N: usize, const M: usize>(
    layout: &[u8],
    first: &[u8],
    second: &[u8],
    first_slots: &mut [u8],
    first_area: &mut [u8],
    second_slots: &mut [u8],
    second_area: &mut [u8],
    report: &mut [u8],
    reply: &mut [u8],
) -> u32
    requires sizes { (N ≤ slot_width * max_slots) × (M ≤ report_width * max_slots) }
    requires reply_size { length reply.old ≡ reply_size }
    requires first { (length first_slots.old % slot_size ≡ 0) × (length first_slots.old ≤ N * number_size) }
    requires second { (length second_slots.old % slot_size ≡ 0) × (length second_slots.old ≤ N * number_size) }
    requires findings { min (length report.old / number_size) M
        ≡ min (length report.old / number_size) (report_width * max_slots) }
    ensures { CompareServed layout.now first.now second.now first_slots.old first_slots.new first_area.old first_area.new second_slots.old second_slots.new second_area.old second_area.new report.old report.new
        reply.old reply.new result }
{
    let mut first_room: [u32; N] = [0; N];
    let first_room = &mut first_room[..first_slots.len() / host::numbers::NUMBER_SIZE];
    let mut second_room: [u32; N] = [0; N];
    let second_room = &mut second_room[..second_slots.len() / host::numbers::NUMBER_SIZE];
    let mut findings: [u32; M] = [0; M];
    let findings = &mut findings[..M.min(report.len() / host::numbers::NUMBER_SIZE)];
    host::numbers::decode(first_slots, first_room);
    host::numbers::decode(second_slots, second_room);
    let a = compare::compare(
        layout,
        first,
        second,
        first_room,
        first_area,
        second_room,
        second_area,
        findings,
    );
    report::write_back(
        first_slots,
        second_slots,
        report,
        reply,
        first_room,
        second_room,
        findings,
        a,
    )
}

// Reads two copies of a record by their layout, each into its own table and area, and says for each value field what
// differs.
pub fn compare(
    layout: &[u8],
    first: &[u8],
    second: &[u8],
    first_slots: &mut [u8],
    first_area: &mut [u8],
    second_slots: &mut [u8],
    second_area: &mut [u8],
    report: &mut [u8],
    reply: &mut [u8],
) -> u32
    ensures { HostCompares layout.now first.now second.now first_slots.old first_slots.new first_area.old first_area.new second_slots.old second_slots.new second_area.old second_area.new report.old report.new
        reply.old reply.new result }
{
    if !host::reply_fits(reply.len()) {
        return Refusal::BadSize.number();
    }
    if !host::slots_fit(first_slots.len()) {
        return host::reply_with(reply, Answer::refused(Refusal::BadSize, 0));
    }
    if !host::slots_fit(second_slots.len()) {
        return refuse_second(layout, first, first_slots, first_area, reply);
    }
    // Clearing large arrays costs more than comparing a small record.
    let few = host::few(first_slots.len())
        && host::few(second_slots.len())
        && report.len() / host::numbers::NUMBER_SIZE <= FEW_FINDINGS;
    if few {
        compare_in::<{ host::FEW_NUMBERS }, { FEW_FINDINGS }>(
            layout,
            first,
            second,
            first_slots,
            first_area,
            second_slots,
            second_area,
            report,
            reply,
        )
    } else {
        compare_in::<{ record::MAX_NUMBERS }, { MAX_REPORT }>(
            layout,
            first,
            second,
            first_slots,
            first_area,
            second_slots,
            second_area,
            report,
            reply,
        )
    }
}
