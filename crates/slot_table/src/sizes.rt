// What is lent keeps to its size, and how many bytes the items of a field fill.
ghost use Rattle.std.specs.Prelude.{◌≡◌, ◌≤◌, ◌<◌};
ghost use Rattle.layout.specs.Codes.{last_data};
ghost use Rattle.layout.specs.inside.Parsing.{FitRole, shape_numbered};
ghost use Rattle.layout.specs.Layout.{real_size};
ghost use Rattle.layout.specs.declared.Role.TheVariants.{Data};
ghost use Rattle.record.specs.Geometry.{record_fits, table_fits, lengths_fit, per_byte, bytes_for};
ghost use Rattle.record.specs.inside.Bounds.{items_limit};

use layout::Shape;
use record::{MAX_AREA, MAX_NUMBERS, MAX_RECORD, SLOT_WIDTH};

// A layout of `layout` bytes, and a record or an output buffer of `bytes` bytes, keep to their sizes.
fn record_fits(layout: usize, bytes: usize) -> bool
    ensures { result ≡ record_fits layout bytes }
{
    layout <= layout::MAX_LAYOUT && bytes <= MAX_RECORD
}

// `slots` numbers are whole slots and not too many, and an area of `area` bytes keeps to its size.
pub fn table_fits(slots: usize, area: usize) -> bool
    ensures { result ≡ table_fits slots area }
{
    slots <= MAX_NUMBERS && slots % SLOT_WIDTH == 0 && area <= MAX_AREA
}

// Layout, slots, record or buffer, and area keep to their sizes; else a call is refused with 1.
pub fn lengths_fit(layout: usize, slots: usize, bytes: usize, area: usize) -> bool
    ensures { result ≡ lengths_fit layout slots bytes area }
{
    record_fits(layout, bytes) && table_fits(slots, area)
}

// How many digits fill a byte.
pub fn per_byte(hex: bool) -> usize
    ensures { result ≡ per_byte hex }
{
    if hex { 2 } else { 8 }
}

// The bytes of a real in a field: a single or a double.
pub fn real_size(single: bool) -> usize
    ensures { result ≡ real_size single }
{
    if single { 4 } else { 8 }
}

// How many bytes n items of a field fill.
pub fn bytes_for(s: Shape, n: usize) -> usize
    requires { (n < items_limit) × FitRole (Data s) }
    ensures { result ≡ bytes_for s n }
{
    match s {
        Shape::Text(_) => n,
        Shape::Digits(hex, _) => n.div_ceil(per_byte(hex)),
        Shape::Integers(w, _) => n * w,
        Shape::Reals(single, _) => n * real_size(single),
    }
}

// How many bytes n items of a field fill, by the number of its type, one that takes a slot: for the passes, which have
// no `Shape` at hand.
pub fn bytes_numbered(d: u32, n: usize) -> usize
    requires { (n < items_limit) × (d ≤ last_data) }
    ensures { result ≡ bytes_for (shape_numbered d) n }
{
    if layout::LAST_DIGITS < d {
        return n << layout::width_power(d);
    }
    if d <= layout::LAST_TEXT {
        return n;
    }
    if d <= layout::LAST_BINARY {
        n.div_ceil(8)
    } else {
        n.div_ceil(2)
    }
}
