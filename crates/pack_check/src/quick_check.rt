// The quick test of one argument: the usual one, which serves, is spared the exact check (the module `arguments`).
ghost use Rattle.std.specs.Prelude.{◌≡◌, ◌≤◌, ◌<◌};
ghost use Rattle.layout.specs.declared.Count.{Count};
ghost use Rattle.layout.specs.Codes.{last_data};
ghost use Rattle.layout.specs.inside.Parsing.{shape_numbered};
ghost use Rattle.record.specs.Geometry.{amount};
ghost use Rattle.record.specs.inside.Bounds.{items_limit};
ghost use Rattle.pack_check.specs.inside.quick_check.{Serves, Sound};

use super::arguments;
use record::slots::Slot;
use slot_table::sizes;

// An argument serves a field that takes `items` items, by the number of the field's type. A string may be shorter or
// longer than its field; of integers and reals there are just the items that the field takes, and whether more of them
// serve depends on the count, which is not looked at here.
fn serves(d: u32, items: usize, a: Slot, area: &[u8]) -> bool
    requires { d ≤ last_data }
    ensures { (n : Count) → items ≡ amount n a.len → Serves result area.now (shape_numbered d) n a }
{
    match d {
        ..=layout::LAST_DIGITS => {
            a.kind == record::slots::STRING
                && slot_table::is_inside(a, area.len())
                && (d <= layout::LAST_TEXT
                    || arguments::are_digits(layout::LAST_BINARY < d, items, a, area))
        }
        ..=layout::LAST_INTEGERS => {
            slot_table::is_integers(a.kind)
                && slot_table::is_inside(a, area.len())
                && items == a.len as usize
        }
        _ => {
            a.kind == record::slots::REAL
                && slot_table::is_inside(a, area.len())
                && items == a.len as usize
                && arguments::singles_fit(d <= layout::LAST_SINGLE, items, a, area)
        }
    }
}

// The bytes that a field takes whose argument passes the quick test; where it does not, `arguments::check` finds what
// is wrong, if anything is.
pub fn try_argument(d: u32, items: usize, a: Slot, area: &[u8]) -> Option<usize>
    requires { (d ≤ last_data) × (items < items_limit) }
    ensures { (n : Count) → items ≡ amount n a.len → Sound result area.now (shape_numbered d) n a }
{
    serves(d, items, a, area).then_some(sizes::bytes_numbered(d, items))
}
