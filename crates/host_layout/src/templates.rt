// Perl templates for a C host.
ghost use Rattle.host_layout.specs.Templates.{HostConverts};

use layout::Refusal;

// Writes the layout that a Perl template stands for.
pub fn from_perl(template: &[u8], layout: &mut [u8], reply: &mut [u8]) -> u32
    ensures { HostConverts template.now layout.old layout.new reply.old reply.new result }
{
    if !host::reply_fits(reply.len()) {
        return Refusal::BadSize.number();
    }
    let a = perl::from_perl(template, layout);
    host::reply_with(reply, a)
}
