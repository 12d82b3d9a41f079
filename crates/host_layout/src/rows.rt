// The fields of a layout for a C host.
ghost use Rattle.host_layout.specs.Fields.{HostLists};

use describe::fields;
use layout::Refusal;

// Writes a row of eight numbers for each field of a layout.
pub fn fields(layout: &[u8], out: &mut [u8], reply: &mut [u8]) -> u32
    ensures { HostLists layout.now out.old out.new reply.old reply.new result }
{
    if !host::reply_fits(reply.len()) {
        return Refusal::BadSize.number();
    }
    host::reply_with(reply, fields::fields(layout, out))
}
