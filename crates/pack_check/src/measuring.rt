// The measuring pass of a packing: each argument is checked, and the length of the result is measured. Nothing is
// written.
ghost use Rattle.std.specs.Prelude.{◌≡◌, ◌<◌, length};
ghost use Rattle.layout.specs.Codes.{field_of};
ghost use Rattle.layout.specs.inside.Parsing.{decoded, FitCount};
ghost use Rattle.record.specs.Table.{slots_of};
ghost use Rattle.record.specs.Slots.{slot_at};
ghost use Rattle.record.specs.inside.Cursor.{origin, moved};
ghost use Rattle.pack_check.specs.inside.arguments.{answer_of};
ghost use Rattle.pack_check.specs.inside.measuring.{StepReady, Prepared, field_checked, arguments_checked, Measures};

use super::{arguments, quick_check};
use layout::{Count, Field, Motion, Refused, Role};
use record::Cursor;
use slot_table::sizes;

// The cursor after `x X @`.
pub fn moved(m: Motion, n: Count, c: Cursor) -> Cursor
    requires { (c.at < 1152921504606846976) × FitCount n }
    ensures { result ≡ moved c m n }
{
    match m {
        Motion::Skip => c.store(record::amount(n, 0)),
        Motion::Back => c.back(n),
        Motion::Goto => c.goto(n),
    }
}

// One field of the pass, by the exact check of its argument.
fn step_exactly(
    f: Field,
    slots: &[u32],
    area: &[u8],
    k: usize,
    c: Cursor,
) -> Result<Cursor, Refused>
    requires { StepReady slots.now k c f.role f.count }
    ensures { result ≡ answer_of (field_checked area.now k (slot_at slots.now k) c f.role f.count) }
{
    match f.role {
        Role::Data(s) => {
            let a = slot_table::slot_at(slots, k);
            arguments::check(s, f.count, a, k, area)?;
            let bytes = sizes::bytes_for(s, record::amount(f.count, a.len as usize));
            Ok(c.store(bytes))
        }
        Role::Move(m) => Ok(moved(m, f.count, c)),
    }
}

// One field of the pass. Where the quick test tells a value's bytes, its argument serves; the exact check does the
// rest.
fn step(code: u32, slots: &[u32], area: &[u8], k: usize, c: Cursor) -> Result<Cursor, Refused>
    requires { StepReady slots.now k c (field_of code).role (field_of code).count }
    ensures { result
        ≡ answer_of
        (field_checked area.now k (slot_at slots.now k) c (field_of code).role (field_of code).count) }
{
    let d = code % layout::FLAG_UNIT;
    if d <= layout::LAST_DATA {
        let a = slot_table::slot_at(slots, k);
        let n = layout::count_from(code / layout::COUNT_UNIT);
        let q = quick_check::try_argument(d, record::amount(n, a.len as usize), a, area);
        if let Some(bytes) = q {
            return Ok(c.store(bytes));
        }
    }
    step_exactly(layout::field_of(code), slots, area, k, c)
}

// The pass over the fields of the codes: the length of the result, or a refusal and the number of its slot.
pub fn measure(codes: &[u32], slots: &[u32], area: &[u8]) -> Result<usize, Refused>
    requires { Prepared codes.now slots.now }
    ensures { Measures
        (arguments_checked area.now 0 (slots_of slots.now) (decoded (length codes.now) codes.now) origin) result }
{
    let mut c = Cursor::new(0);
    let mut k: usize = 0;
    for &code in codes {
        c = step(code, slots, area, k, c)?;
        k += layout::slots_in(code % layout::FLAG_UNIT);
    }
    Ok(c.end)
}
