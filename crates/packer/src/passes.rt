// Packing by the fields of the codes: once the layout is read and there is a slot for each field that takes one.
// The arguments are checked and the result is measured before anything is written; then the fields are stored.
ghost use Rattle.std.specs.Prelude.{◌≡◌, ◌≤◌, length};
ghost use Rattle.record.specs.Table.{max_record};
ghost use Rattle.pack_check.specs.inside.measuring.{Prepared};
ghost use Rattle.packer.specs.inside.passes.{finishes};

use layout::Refusal;
use pack_check::measuring;
use pack_store::writing;
use record::Answer;

// Packs the arguments into the output by the fields of the codes. A refusal changes nothing.
pub fn pack(codes: &[u32], slots: &[u32], area: &[u8], output: &mut [u8]) -> Answer
    requires { Prepared codes.now slots.now × (length output.old ≤ max_record) }
    ensures { record { answer = result; output = output.new }
        ≡ finishes codes.now slots.now area.now output.old }
{
    match measuring::measure(codes, slots, area) {
        Err(e) => Answer::refused(e.why, e.place as u32),
        Ok(len) => {
            if output.len() < len {
                return Answer::refused(Refusal::NoRoom, 0);
            }
            writing::write(codes, slots, area, output);
            Answer::accepted(len as u32, 0)
        }
    }
}
