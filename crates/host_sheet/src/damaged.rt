// Rescuing a damaged sheet for a C host.
ghost use Rattle.std.specs.Prelude.{◌≡◌, ◌*◌, length};
ghost use Rattle.host.specs.Numbers.{number_size};
ghost use Rattle.host_sheet.specs.Rescuing.{rescue_reply_size, rescue_reply, RescueServed, HostRescues};

use layout::Refusal;
use record::Answer;
use rescue::fill::Rescued;

// Writes an answer into the reply, and hands back its number.
fn reply_with(reply: &mut [u8], a: Rescued) -> u32
    requires { length reply.old ≡ rescue_reply_size }
    ensures { (result ≡ a.number) × (reply.new ≡ rescue_reply a) }
{
    let Rescued {
        number,
        first,
        second,
        third,
    } = a;
    let answer = Answer {
        number,
        first,
        second,
    };
    host::reply_long(reply, answer, third)
}

// Rescues, with room lent for the slots' numbers: what stands there does not count. Only the slots of the legs are
// written back.
fn rescue_by(
    sheet: &[u8],
    legs: usize,
    slots: &mut [u8],
    area: &mut [u8],
    mark: usize,
    reply: &mut [u8],
    room: &mut [u32],
) -> u32
    requires { (length reply.old ≡ rescue_reply_size) × (length slots.old ≡ length room.old * number_size) }
    ensures { RescueServed sheet.now legs slots.old slots.new area.old area.new mark reply.old reply.new result }
{
    let a = rescue::rescue(sheet, legs, room, area, mark);
    if a.number != 0 {
        return reply_with(reply, a);
    }
    host::numbers::encode(slots, room, legs);
    reply_with(reply, a)
}

// Rescues a damaged sheet, and sets slots and area.
pub fn rescue(
    sheet: &[u8],
    legs: usize,
    slots: &mut [u8],
    area: &mut [u8],
    mark: usize,
    reply: &mut [u8],
) -> u32
    ensures { HostRescues sheet.now legs slots.old slots.new area.old area.new mark reply.old reply.new result }
{
    if !host::long_reply_fits(reply.len()) {
        return Refusal::BadSize.number();
    }
    if !host::slots_fit(slots.len()) {
        return reply_with(reply, Rescued::refused(Refusal::BadSize));
    }
    let n = slots.len() / host::numbers::NUMBER_SIZE;
    let mut room = [0; record::MAX_NUMBERS];
    rescue_by(sheet, legs, slots, area, mark, reply, &mut room[..n])
}
