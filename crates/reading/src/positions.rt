// One field of a run over a record, by the numbers of its code: how many items it has, whether the record has their
// bytes, and the cursor after it.
ghost use Rattle.std.specs.Prelude.{◌≡◌, ◌≤◌, ◌<◌};
ghost use Rattle.layout.specs.Codes.{last_data, count_from, field_of};
ghost use Rattle.layout.specs.inside.Parsing.{shape_numbered};
ghost use Rattle.record.specs.Table.{max_record};
ghost use Rattle.record.specs.Geometry.{items_in, items_of};
ghost use Rattle.reading.specs.inside.positions.{moved_by, StepAs};

use layout::{Motion, Role};
use record::Cursor;
use slot_table::sizes;

// A field that is found: the number of its type, its flag, the place at which it begins, and how many items it has.
#[derive(Clone, Copy)]
pub struct Found {
    pub number: u32,
    pub unsigned: bool,
    pub at: usize,
    pub items: usize,
}

// A turn of the run: the cursor after the field, and the field where its type takes a slot.
#[derive(Clone, Copy)]
pub struct Turn {
    pub next: Cursor,
    pub found: Option<Found>,
}

// The items of type d that `left` bytes hold.
fn items_in(d: u32, left: usize) -> usize
    requires { (left ≤ max_record) × (d ≤ last_data) }
    ensures { result ≡ items_in (shape_numbered d) left }
{
    match d {
        layout::INT_8.. => left >> layout::width_power(d),
        ..=layout::LAST_TEXT => left,
        ..=layout::LAST_BINARY => left * 8,
        _ => left * 2,
    }
}

// The items of a field of type d, whose count has the number n, where `left` bytes are left: by numbers, as the passes
// have them.
pub fn items(d: u32, n: u32, left: usize) -> usize
    requires { (left ≤ max_record) × (d ≤ last_data) }
    ensures { (result ≡ items_of (shape_numbered d) (count_from n) left) × (result < 4294967296) }
{
    match n {
        0 => 1,
        1 => items_in(d, left),
        _ => n as usize - 2,
    }
}

// The cursor after the field of a code, where that is a move.
fn moved_by(code: u32, c: Cursor) -> Cursor
    requires { (c.at ≤ c.end) × (c.end ≤ max_record) }
    ensures { result ≡ moved_by c (field_of code).role (field_of code).count }
{
    let field = layout::field_of(code);
    let Role::Move(motion) = field.role else {
        return c;
    };
    match motion {
        Motion::Skip => c.skip(field.count),
        Motion::Back => c.back(field.count),
        Motion::Goto => c.seek(field.count),
    }
}

// The turn of a code's field; None where the record has too few bytes for it. (Each pass has a copy of its own, which
// the compiler builds in: a call costs 36 instructions for a field.)
pub fn step<const WRITING: bool>(code: u32, c: Cursor) -> Option<Turn>
    requires { (c.at ≤ c.end) × (c.end ≤ max_record) }
    ensures { StepAs code c result }
{
    let number = code % layout::FLAG_UNIT;
    if layout::LAST_DATA < number {
        return Some(Turn {
            next: moved_by(code, c),
            found: None,
        });
    }
    let left = c.end - c.at;
    let items = items(number, code / layout::COUNT_UNIT, left);
    let bytes = sizes::bytes_numbered(number, items);
    if left < bytes {
        return None;
    }
    Some(Turn {
        next: c.load(bytes),
        found: Some(Found {
            number,
            unsigned: code / layout::FLAG_UNIT % 2 == 1,
            at: c.at,
            items,
        }),
    })
}
