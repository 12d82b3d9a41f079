// The writing pass of a packing: every field is stored in the output. What was checked and measured before is relied
// on.
ghost use Rattle.std.specs.Prelude.{◌≡◌, length};
ghost use Rattle.layout.specs.Codes.{field_of};
ghost use Rattle.layout.specs.inside.Parsing.{decoded};
ghost use Rattle.record.specs.Table.{slots_of};
ghost use Rattle.record.specs.Slots.{slot_at};
ghost use Rattle.record.specs.inside.Cursor.{origin, moved};
ghost use Rattle.pack_store.specs.inside.writing.{put_move, written, Puts, Movable, Puttable, Writable};

use super::stores;
use layout::{Count, Motion, Role};
use record::Cursor;

// One move of the pass, `x X @`: zeros for `x`, and in the gap that `@` leaves.
fn put_move(m: Motion, n: Count, c: Cursor, out: &mut [u8]) -> Cursor
    requires { Movable c m n (length out.old) }
    ensures { (result ≡ moved c m n) × (out.new ≡ put_move out.old c m n) }
{
    match m {
        Motion::Skip => {
            let bytes = record::amount(n, 0);
            out[c.at..c.at + bytes].fill(0);
            c.store(bytes)
        }
        Motion::Back => c.back(n),
        Motion::Goto => {
            let d = c.goto(n);
            out[c.end..d.end].fill(0);
            d
        }
    }
}

// One field of the pass.
fn put(code: u32, slots: &[u32], area: &[u8], k: usize, c: Cursor, out: &mut [u8]) -> Cursor
    requires { Puttable area.now slots.now k c (field_of code).role (field_of code).count (length out.old) }
    ensures { Puts code area.now (slot_at slots.now k) c out.old result out.new }
{
    let d = code % layout::FLAG_UNIT;
    if d <= layout::LAST_DATA {
        let a = slot_table::slot_at(slots, k);
        let n = layout::count_from(code / layout::COUNT_UNIT);
        let bytes = stores::store_value(d, record::amount(n, a.len as usize), a, area, out, c.at);
        return c.store(bytes);
    }
    let f = layout::field_of(code);
    let Role::Move(m) = f.role else {
        unreachable!()
    };
    put_move(m, f.count, c, out)
}

// The pass over the fields of the codes, as `measuring::measure` walks over them: there a step may refuse, and here it
// writes.
pub fn write(codes: &[u32], slots: &[u32], area: &[u8], out: &mut [u8])
    requires { Writable area.now codes.now slots.now (length out.old) }
    ensures { out.new
        ≡ written area.now (slots_of slots.now) (decoded (length codes.now) codes.now) origin out.old }
{
    let mut c = Cursor::new(0);
    let mut k: usize = 0;
    for &code in codes {
        c = put(code, slots, area, k, c, out);
        k += layout::slots_in(code % layout::FLAG_UNIT);
    }
}
