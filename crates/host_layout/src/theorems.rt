// What a layout promises, asked by a C host; and whether one layout is another with fields added.
ghost use Rattle.host_layout.specs.Theorems.{Tells, HostPromises, HostExtends};

use layout::Refusal;
use promises::Told;

// Writes four numbers into the reply, and hands back the first; a reply of another size stays as it is.
fn tell(t: Told, reply: &mut [u8]) -> u32
    ensures { Tells t reply.old reply.new result }
{
    if !host::long_reply_fits(reply.len()) {
        return Refusal::BadSize.number();
    }
    host::reply_long(reply, t.answer, t.fourth)
}

// Says where a layout breaks each of the three promises.
pub fn promises(layout: &[u8], reply: &mut [u8]) -> u32
    ensures { HostPromises layout.now reply.old reply.new result }
{
    tell(promises::promises(layout), reply)
}

// Says whether the new layout is the old one with fields added at its end.
pub fn extends(old: &[u8], new: &[u8], reply: &mut [u8]) -> u32
    ensures { HostExtends old.now new.now reply.old reply.new result }
{
    tell(promises::extends(old, new), reply)
}
