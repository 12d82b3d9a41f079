// A record of two templates, packed one after the other into one buffer.
// The claim about what is accepted is in specs/Claim.antt, and its proof in proofs/.
ghost use Rattle.std.specs.Prelude.{◌≡◌, length};
ghost use Rattle.joining.specs.Calls.{PacksBoth};

use layout::Refusal;
use record::Answer;

// Packs by one layout and then by another, with room lent for the first result: the buffer is written only when both
// are accepted.
fn both_by(
    first: &[u8],
    first_slots: &[u32],
    second: &[u8],
    second_slots: &[u32],
    area: &[u8],
    out: &mut [u8],
    room: &mut [u8],
) -> Answer
    requires { length room.old ≡ length out.old }
    ensures { PacksBoth first.now first_slots.now second.now second_slots.now area.now out.old out.new result }
{
    let a = packer::pack(first, first_slots, area, room);
    if a.number != 0 {
        return a;
    }
    let n = a.first as usize;
    let b = packer::pack(second, second_slots, area, &mut out[n..]);
    if b.number != 0 {
        return b;
    }
    out[..n].copy_from_slice(&room[..n]);
    Answer::accepted(a.first + b.first, 0)
}

// Packs by one layout and then, into the buffer after its result, by another. Answers 0 and the length of both, or the
// first refusal, which changes nothing. What is accepted is what packing by the two texts joined gives, without their
// being joined anywhere.
pub fn pack_both(
    first: &[u8],
    first_slots: &[u32],
    second: &[u8],
    second_slots: &[u32],
    area: &[u8],
    out: &mut [u8],
) -> Answer
    ensures { PacksBoth first.now first_slots.now second.now second_slots.now area.now out.old out.new result }
{
    let size = out.len();
    if record::MAX_RECORD < size {
        return Answer::refused(Refusal::BadSize, 0);
    }
    let mut room: [u8; record::MAX_RECORD] = [0; record::MAX_RECORD];
    both_by(
        first,
        first_slots,
        second,
        second_slots,
        area,
        out,
        &mut room[..size],
    )
}
