// Reading sheets for a C host.
ghost use Rattle.std.specs.Prelude.{◌≡◌, ◌*◌, length};
ghost use Rattle.host.specs.Numbers.{number_size};
ghost use Rattle.host.specs.Host.{reply_size};
ghost use Rattle.host_sheet.specs.Reading.{ReadServed, HostReadsSheet};

use layout::Refusal;
use record::Answer;

// Reads a sheet, with room lent for the slots' numbers: what stands there does not count. Only the slots that an
// accepted reading set are written back.
fn read_by(
    sheet: &[u8],
    slots: &mut [u8],
    area: &mut [u8],
    mark: usize,
    reply: &mut [u8],
    room: &mut [u32],
) -> u32
    requires { (length reply.old ≡ reply_size) × (length slots.old ≡ length room.old * number_size) }
    ensures { ReadServed sheet.now slots.old slots.new area.old area.new mark reply.old reply.new result }
{
    let a = sheet_read::read(sheet, room, area, mark);
    if a.number != 0 {
        return host::reply_with(reply, a);
    }
    host::numbers::encode(slots, room, a.first as usize);
    host::reply_with(reply, a)
}

// Reads a sheet, and sets slots and area.
pub fn read(sheet: &[u8], slots: &mut [u8], area: &mut [u8], mark: usize, reply: &mut [u8]) -> u32
    ensures { HostReadsSheet sheet.now slots.old slots.new area.old area.new mark reply.old reply.new result }
{
    if !host::reply_fits(reply.len()) {
        return Refusal::BadSize.number();
    }
    if !host::slots_fit(slots.len()) {
        return host::reply_with(reply, Answer::refused(Refusal::BadSize, 0));
    }
    let n = slots.len() / host::numbers::NUMBER_SIZE;
    let mut room = [0; record::MAX_NUMBERS];
    read_by(sheet, slots, area, mark, reply, &mut room[..n])
}
