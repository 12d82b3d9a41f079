// The value of a field, stored in the output by the number of its type.
ghost use Rattle.std.specs.Prelude.{◌≤◌, length};
ghost use Rattle.layout.specs.declared.Shape.TheVariants.{Text, Digits, Integers, Reals};
ghost use Rattle.layout.specs.Codes.{last_data};
ghost use Rattle.layout.specs.inside.Parsing.{shape_numbered};
ghost use Rattle.pack_store.specs.inside.stores.{StoredAs, Storable};

use layout::Shape;
use pack_check::arguments;
use record::slots::Slot;
use slot_table::sizes;

// Stores n items of a string; tells how many bytes they fill.
fn store_text(n: usize, a: Slot, area: &[u8], out: &mut [u8], at: usize, pad: u8) -> usize
    requires { Storable area.now (Text pad) n a at (length out.old) }
    ensures { StoredAs area.now (Text pad) n a at out.old result out.new }
{
    text::store(out, at, area, a.start as usize, a.len as usize, n, pad);
    n
}

// Stores n digits; tells how many bytes they fill, by a constant number in each.
fn store_digits(
    n: usize,
    a: Slot,
    area: &[u8],
    out: &mut [u8],
    at: usize,
    hex: bool,
    high: bool,
) -> usize
    requires { Storable area.now (Digits hex high) n a at (length out.old) }
    ensures { StoredAs area.now (Digits hex high) n a at out.old result out.new }
{
    let given = arguments::bytes_of(a, area);
    if hex {
        digits::store::store_hex(out, at, given, n, high);
        return sizes::bytes_for(Shape::Digits(true, high), n);
    }
    digits::store::store_binary(out, at, given, n, high);
    sizes::bytes_for(Shape::Digits(false, high), n)
}

// Stores n integers; tells how many bytes they fill.
fn store_integers(
    n: usize,
    a: Slot,
    area: &[u8],
    out: &mut [u8],
    at: usize,
    w: usize,
    big: bool,
) -> usize
    requires { Storable area.now (Integers w big) n a at (length out.old) }
    ensures { StoredAs area.now (Integers w big) n a at out.old result out.new }
{
    integers::store::store(out, at, area, a.start as usize, n, w, big);
    n * w
}

// Stores n reals; tells how many bytes they fill.
fn store_reals(
    n: usize,
    a: Slot,
    area: &[u8],
    out: &mut [u8],
    at: usize,
    single: bool,
    big: bool,
) -> usize
    requires { Storable area.now (Reals single big) n a at (length out.old) }
    ensures { StoredAs area.now (Reals single big) n a at out.old result out.new }
{
    reals::store::store(out, at, area, a.start as usize, n, single, big);
    n * sizes::real_size(single)
}

// Stores n items of a value of the type number d; tells how many bytes they fill. A call with constants for each type
// of integers and reals, so that the compiler makes code of its own for each, and one for all digits: with more, this
// function is too large to be built into the pass.
#[tactic(auto, unfolding(layout::specs::inside::Parsing::shape_numbered, layout::specs::Codes::type_numbered))]
pub fn store_value(d: u32, n: usize, a: Slot, area: &[u8], out: &mut [u8], at: usize) -> usize
    requires { (d ≤ last_data) × Storable area.now (shape_numbered d) n a at (length out.old) }
    ensures { StoredAs area.now (shape_numbered d) n a at out.old result out.new }
{
    match d {
        layout::TEXT_ZERO => store_text(n, a, area, out, at, 0),
        layout::TEXT_SPACE => store_text(n, a, area, out, at, b' '),
        layout::BINARY_LOW..=layout::HEX_HIGH => store_digits(
            n,
            a,
            area,
            out,
            at,
            layout::LAST_BINARY < d,
            d % 2 == 1,
        ),
        layout::INT_8 => store_integers(n, a, area, out, at, 1, false),
        layout::INT_8_BIG => store_integers(n, a, area, out, at, 1, true),
        layout::INT_16 => store_integers(n, a, area, out, at, 2, false),
        layout::INT_16_BIG => store_integers(n, a, area, out, at, 2, true),
        layout::INT_32 => store_integers(n, a, area, out, at, 4, false),
        layout::INT_32_BIG => store_integers(n, a, area, out, at, 4, true),
        layout::INT_64 => store_integers(n, a, area, out, at, 8, false),
        layout::INT_64_BIG => store_integers(n, a, area, out, at, 8, true),
        layout::SINGLE => store_reals(n, a, area, out, at, true, false),
        layout::SINGLE_BIG => store_reals(n, a, area, out, at, true, true),
        layout::DOUBLE => store_reals(n, a, area, out, at, false, false),
        _ => store_reals(n, a, area, out, at, false, true),
    }
}
