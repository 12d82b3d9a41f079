// A record read by a layout and packed again by it: the calls of which the claim speaks.
// The claim is in specs/Claim.antt, its proof in proofs/; `read_and_pack` keeps it.
ghost use Rattle.lossless.specs.Calls.{ReadsAndPacksAs};

use record::Answer;

// Reads a record by a layout into a table and an area, and packs by the same layout what the table then shows.
// Answers what the packer does, or the reader where that refuses.
pub fn read_and_pack(
    layout: &[u8],
    bytes: &[u8],
    slots: &mut [u32],
    area: &mut [u8],
    mark: usize,
    out: &mut [u8],
) -> Answer
    ensures { ReadsAndPacksAs
        (record {
          layout = layout.now;
          bytes = bytes.now;
          slots = slots.old;
          area = area.old;
          mark = mark;
          output = out.old;
        })
        (record { answer = result; slots = slots.new; area = area.new; output = out.new }) }
{
    let r = reader::read(layout, bytes, slots, area, mark);
    if r.answer.number != 0 {
        return r.answer;
    }
    packer::pack(layout, slots, area, out)
}
