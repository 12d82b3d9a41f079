// Layouts described for a C host.
ghost use Rattle.host_layout.specs.Layouts.{HostDescribes};

use layout::Refusal;

// Says how many slots a layout takes and how long its shortest record is.
pub fn describe(layout: &[u8], reply: &mut [u8]) -> u32
    ensures { HostDescribes layout.now reply.old reply.new result }
{
    if !host::reply_fits(reply.len()) {
        return Refusal::BadSize.number();
    }
    host::reply_with(reply, describe::describe(layout))
}
