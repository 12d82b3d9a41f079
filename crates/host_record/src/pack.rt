// Packing for a C host. A short layout and few slots get small arrays: clearing the large ones costs more than a small
// record.
ghost use Rattle.std.specs.Prelude.{◌≡◌, ◌*◌, ◌%◌, ◌≤◌, length};
ghost use Rattle.record.specs.Table.{slot_width, max_slots};
ghost use Rattle.host.specs.Numbers.{number_size};
ghost use Rattle.host.specs.Host.{slot_size};
ghost use Rattle.host_record.specs.Packing.{HostPacks};
ghost use Rattle.host_record.specs.inside.Steps.{Packs};

use host::FEW_NUMBERS;
use layout::{Refusal, SHORT_LAYOUT};
use record::{Answer, MAX_NUMBERS};

// Packs, with room for N numbers of slots, by the call for a short layout or for any.
fn pack_in<const SHORT: bool, const N: usize>(
    layout: &[u8],
    slots: &[u8],
    area: &[u8],
    out: &mut [u8],
) -> Answer
    requires numbers { (length slots.now % slot_size ≡ 0) × (length slots.now ≤ N * number_size)
        × (N ≤ slot_width * max_slots) }
    ensures { Packs layout.now slots.now area.now out.old out.new result }
{
    let mut room: [u32; N] = [0; N];
    let room = &mut room[..slots.len() / host::numbers::NUMBER_SIZE];
    host::numbers::decode(slots, room);
    if SHORT {
        return packer::pack_short(layout, room, area, out);
    }
    packer::pack(layout, room, area, out)
}

// Packs the arguments into `out` by the layout (Tcl's `binary format`).
pub fn pack(layout: &[u8], slots: &[u8], area: &[u8], out: &mut [u8], reply: &mut [u8]) -> u32
    ensures { HostPacks layout.now slots.now area.now out.old out.new reply.old reply.new result }
{
    if !host::reply_fits(reply.len()) {
        return Refusal::BadSize.number();
    }
    if !host::slots_fit(slots.len()) {
        return host::reply_with(reply, Answer::refused(Refusal::BadSize, 0));
    }
    if layout.len() <= SHORT_LAYOUT && host::few(slots.len()) {
        let a = pack_in::<true, FEW_NUMBERS>(layout, slots, area, out);
        return host::reply_with(reply, a);
    }
    let a = pack_in::<false, MAX_NUMBERS>(layout, slots, area, out);
    host::reply_with(reply, a)
}
