// Reading by the fields of the codes: once the layout is read and the sizes fit. Two passes over the fields: the first
// measures, and the second writes. So all is decided before anything is written. Where the lengths, or the fields
// alone, tell that the values fit, the first is left out.
ghost use Rattle.std.specs.Prelude.{◌≡◌, ◌≤◌, length};
ghost use Rattle.layout.specs.Layout.{max_layout};
ghost use Rattle.record.specs.Table.{max_record};
ghost use Rattle.reader.specs.inside.passes.{ReadReady, surely_read, ReadsCodes};

use super::checking;
use record::ReadAnswer;

// There are room and slots enough whatever the record holds.
#[tactic(auto, unfolding(crate::specs::inside::passes::surely_read))]
pub fn surely_read(codes: &[u32], taken: usize, bytes: usize, slots: usize, room: usize) -> bool
    requires { (length codes.now ≤ max_layout) × (bytes ≤ max_record) }
    ensures { result ≡ surely_read (length codes.now) taken codes.now bytes slots room }
{
    checking::surely_fits(codes.len(), taken, bytes, slots, room)
        || taken <= slots / record::SLOT_WIDTH
            && reading::measure::value_bound(codes, bytes) <= room
}

// Reads by the fields of the codes, whose values are measured first.
// (Handed on as `&codes[..]` a slice goes to the next call by value, and by its name alone by its address.)
pub fn read_measured(
    codes: &[u32],
    taken: usize,
    bytes: &[u8],
    slots: &mut [u32],
    area: &mut [u8],
    mark: usize,
) -> ReadAnswer
    requires { ReadReady (length codes.now) taken codes.now bytes.now slots.old area.old mark }
    ensures { ReadsCodes (length codes.now) taken codes.now bytes.now slots.old slots.new area.old area.new mark
        result }
{
    let room = area.len() - mark;
    match checking::fits(&codes[..], taken, &bytes[..], slots.len(), room) {
        Ok(()) => reading::fill(&codes[..], &bytes[..], slots, area, mark),
        Err(e) => ReadAnswer::refused(e.why, e.place as u32),
    }
}

// Reads by the fields of the codes. Their values are measured only where it is not sure without it that they fit.
pub fn read(
    codes: &[u32],
    taken: usize,
    bytes: &[u8],
    slots: &mut [u32],
    area: &mut [u8],
    mark: usize,
) -> ReadAnswer
    requires { ReadReady (length codes.now) taken codes.now bytes.now slots.old area.old mark }
    ensures { ReadsCodes (length codes.now) taken codes.now bytes.now slots.old slots.new area.old area.new mark
        result }
{
    if surely_read(
        &codes[..],
        taken,
        bytes.len(),
        slots.len(),
        area.len() - mark,
    ) {
        return reading::fill(&codes[..], &bytes[..], slots, area, mark);
    }
    read_measured(&codes[..], taken, &bytes[..], slots, area, mark)
}
