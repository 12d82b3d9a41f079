// What one layout packs, cut anywhere, read by another: the calls of which the claim speaks.
// The claim is in specs/Claim.antt, its proof in proofs/; `read_back` keeps it.
ghost use Rattle.evolution.specs.Calls.{ReadsBackAs};

use record::ReadAnswer;

// Packs by one layout into `out`, cuts the record at `cut` (or not, where it is shorter), and reads it by another
// layout. Answers what the reader does, or the packer where that refuses (and no steps).
pub fn read_back(
    written_by: &[u8],
    slots: &[u32],
    area: &[u8],
    out: &mut [u8],
    cut: usize,
    read_by: &[u8],
    table: &mut [u32],
    values: &mut [u8],
    mark: usize,
) -> ReadAnswer
    ensures { ReadsBackAs
        (record {
          written_by = written_by.now;
          slots = slots.now;
          area = area.now;
          output = out.old;
          cut = cut;
          read_by = read_by.now;
          table = table.old;
          values = values.old;
          mark = mark;
        })
        (record { answer = result; output = out.new; table = table.new; values = values.new }) }
{
    let a = packer::pack(written_by, slots, area, out);
    if a.number != 0 {
        return ReadAnswer {
            answer: a,
            steps: 0,
        };
    }
    let k = cut.min(a.first as usize);
    reader::read(read_by, &out[..k], table, values, mark)
}
