// The first pass of a reading over the fields: how many bytes of the area the values take, and how many at most by the
// fields alone. Nothing is written.
ghost use Rattle.std.specs.Prelude.{◌≡◌, ◌≤◌, ◌<◌, length};
ghost use Rattle.layout.specs.Layout.{max_layout};
ghost use Rattle.layout.specs.Codes.{field_of};
ghost use Rattle.layout.specs.inside.Parsing.{decoded};
ghost use Rattle.record.specs.Table.{max_record, value_bytes};
ghost use Rattle.reading.specs.inside.Run.{values_of};
ghost use Rattle.reading.specs.inside.Bounds.{field_bound, value_bound};

use super::{positions, value};
use record::Cursor;

pub fn measure(codes: &[u32], bytes: &[u8]) -> usize
    requires { (length codes.now ≤ max_layout) × (length bytes.now ≤ max_record) }
    ensures { result ≡ length (value_bytes (values_of (length codes.now) codes.now bytes.now)) }
{
    let mut c = Cursor::new(bytes.len());
    let mut size: usize = 0;
    for &code in codes {
        let Some(turn) = positions::step::<false>(code, c) else {
            return size;
        };
        if let Some(found) = turn.found {
            size += value::size_of(bytes, found);
        }
        c = turn.next;
    }
    size
}

// The bytes of the area that the value of a code's field takes at most, whatever a record of `bytes` bytes holds.
fn field_bound(code: u32, bytes: usize) -> usize
    requires { bytes ≤ max_record }
    ensures { (result ≡ field_bound bytes (field_of code).role (field_of code).count) × (result < 34359738368) }
{
    let d = code % layout::FLAG_UNIT;
    if layout::LAST_DATA < d {
        return 0;
    }
    let items = positions::items(d, code / layout::COUNT_UNIT, bytes);
    if d <= layout::LAST_DIGITS {
        items
    } else {
        8 * items
    }
}

// The bytes of the area that the values of the fields in the codes take at most, whatever a record of `bytes` bytes
// holds.
pub fn value_bound(codes: &[u32], bytes: usize) -> usize
    requires { (length codes.now ≤ max_layout) × (bytes ≤ max_record) }
    ensures { result ≡ value_bound bytes (decoded (length codes.now) codes.now) }
{
    codes.iter().map(|&code| field_bound(code, bytes)).sum()
}
