// What a comparison on numbers left, written back for a C host.
ghost use Rattle.std.specs.Prelude.{◌≡◌, length};
ghost use Rattle.host.specs.Host.{reply_size, reply_of};
ghost use Rattle.host_compare.specs.inside.report.{Fits, WrittenBack};

use record::Answer;

// Writes an answer into the reply, and of an accepted comparison the slots of its fields and the findings; the slots
// after them are not set, and stay as lent.
pub fn write_back(
    first_slots: &mut [u8],
    second_slots: &mut [u8],
    report: &mut [u8],
    reply: &mut [u8],
    first_room: &[u32],
    second_room: &[u32],
    findings: &[u32],
    a: Answer,
) -> u32
    requires reply_size { length reply.old ≡ reply_size }
    requires fits { a.number ≡ 0
        → Fits a.first first_slots.old second_slots.old report.old first_room.now second_room.now
        findings.now }
    ensures { (result ≡ a.number) × (reply.new ≡ reply_of a)
        × WrittenBack first_slots.old first_slots.new second_slots.old second_slots.new report.old report.new first_room.now second_room.now findings.now a }
{
    if a.number != 0 {
        return host::reply_with(reply, a);
    }
    let fields = a.first as usize;
    host::numbers::encode(first_slots, first_room, fields);
    host::numbers::encode(second_slots, second_room, fields);
    host::numbers::encode_run(report, &findings[..compare::report::REPORT_WIDTH * fields]);
    host::reply_with(reply, a)
}
