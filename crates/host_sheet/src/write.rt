// Writing sheets for a C host.
ghost use Rattle.std.specs.Prelude.{◌≡◌, ◌*◌, ◌%◌, length};
ghost use Rattle.record.specs.Table.{slot_width};
ghost use Rattle.host.specs.Numbers.{number_size};
ghost use Rattle.host.specs.Host.{reply_size};
ghost use Rattle.host_sheet.specs.Writing.{WriteServed, HostWritesSheet};

use layout::Refusal;
use record::Answer;

// Writes a sheet, with room lent for the slots' numbers.
fn write_by(slots: &[u8], area: &[u8], sheet: &mut [u8], reply: &mut [u8], room: &mut [u32]) -> u32
    requires { (length reply.old ≡ reply_size) × (length slots.now ≡ length room.old * number_size)
        × (length room.old % slot_width ≡ 0) }
    ensures { WriteServed slots.now area.now sheet.old sheet.new reply.old reply.new result }
{
    host::numbers::decode(slots, room);
    let a = sheet_write::write(room, area, sheet);
    host::reply_with(reply, a)
}

// Writes a table of slots as a sheet at the front of the buffer.
pub fn write(slots: &[u8], area: &[u8], sheet: &mut [u8], reply: &mut [u8]) -> u32
    ensures { HostWritesSheet slots.now area.now sheet.old sheet.new reply.old reply.new result }
{
    if !host::reply_fits(reply.len()) {
        return Refusal::BadSize.number();
    }
    if !host::slots_fit(slots.len()) {
        return host::reply_with(reply, Answer::refused(Refusal::BadSize, 0));
    }
    let n = slots.len() / host::numbers::NUMBER_SIZE;
    let mut room = [0; record::MAX_NUMBERS];
    write_by(slots, area, sheet, reply, &mut room[..n])
}
