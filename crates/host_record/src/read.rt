// Reading for a C host. A short layout and few slots get small arrays: clearing the large ones costs more than a small
// record.
ghost use Rattle.std.specs.Prelude.{◌≡◌, ◌*◌, ◌%◌, ◌≤◌, length};
ghost use Rattle.record.specs.Table.{slot_width, max_slots};
ghost use Rattle.host.specs.Numbers.{number_size};
ghost use Rattle.host.specs.Host.{slot_size, long_reply_size, long_reply};
ghost use Rattle.host_record.specs.Reading.{HostReads};
ghost use Rattle.host_record.specs.inside.Steps.{written_back, Reads};

use host::FEW_NUMBERS;
use layout::{Refusal, SHORT_LAYOUT};
use record::{Answer, MAX_NUMBERS, ReadAnswer};

// Writes a reading's answer into the reply, and back into the slots those that an accepted reading set; the rest stays
// as lent.
pub fn read_back(slots: &mut [u8], reply: &mut [u8], room: &[u32], r: ReadAnswer) -> u32
    requires { (length reply.old ≡ long_reply_size) × (length slots.old ≡ length room.now * number_size)
        × (r.answer.number ≡ 0 → r.answer.first * slot_width ≤ length room.now) }
    ensures { (result ≡ r.answer.number) × (reply.new ≡ long_reply r.answer r.steps)
        × (slots.new ≡ written_back slots.old room.now r.answer) }
{
    let a = r.answer;
    if a.number != 0 {
        return host::reply_long(reply, a, r.steps);
    }
    host::numbers::encode(slots, room, a.first as usize);
    host::reply_long(reply, a, r.steps)
}

// Reads, with room for N numbers of slots, by the call for a short layout or for any: what stands there does not count.
fn read_in<const SHORT: bool, const N: usize>(
    layout: &[u8],
    bytes: &[u8],
    slots: &mut [u8],
    area: &mut [u8],
    mark: usize,
    reply: &mut [u8],
) -> u32
    requires numbers { (length reply.old ≡ long_reply_size) × (length slots.old % slot_size ≡ 0)
        × (length slots.old ≤ N * number_size) × (N ≤ slot_width * max_slots) }
    ensures { Reads layout.now bytes.now slots.old slots.new area.old area.new mark reply.old reply.new result }
{
    let mut room: [u32; N] = [0; N];
    let room = &mut room[..slots.len() / host::numbers::NUMBER_SIZE];
    if SHORT {
        let r = reader::read_short(layout, bytes, room, area, mark);
        return read_back(slots, reply, room, r);
    }
    let r = reader::read(layout, bytes, room, area, mark);
    read_back(slots, reply, room, r)
}

// Reads a record by the layout (Tcl's `binary scan`), and sets slots and area.
pub fn read(
    layout: &[u8],
    bytes: &[u8],
    slots: &mut [u8],
    area: &mut [u8],
    mark: usize,
    reply: &mut [u8],
) -> u32
    ensures { HostReads layout.now bytes.now slots.old slots.new area.old area.new mark reply.old reply.new result }
{
    if !host::long_reply_fits(reply.len()) {
        return Refusal::BadSize.number();
    }
    if !host::slots_fit(slots.len()) {
        return host::reply_long(reply, Answer::refused(Refusal::BadSize, 0), 0);
    }
    if layout.len() <= SHORT_LAYOUT && host::few(slots.len()) {
        return read_in::<true, FEW_NUMBERS>(layout, bytes, slots, area, mark, reply);
    }
    read_in::<false, MAX_NUMBERS>(layout, bytes, slots, area, mark, reply)
}
