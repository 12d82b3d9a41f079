// Reals, `r R q Q`, stored. A field of `q Q` has the bytes of the area's doubles, in its order; one of `r R` has the
// four bytes of the nearest single.
ghost use Rattle.std.specs.Prelude.{◌≡◌, true, ◌+◌, ◌*◌, ◌≤◌, length, drop};
ghost use Rattle.layout.specs.declared.Shape.TheVariants.{Reals};
ghost use Rattle.layout.specs.Layout.{real_size};
ghost use Rattle.record.specs.Bytes.{store_at, number_at};
ghost use Rattle.record.specs.Table.{integers_in};
ghost use Rattle.record.specs.Packing.{stored};
ghost use Rattle.reals.specs.inside.store.{single_bytes};

use super::{DOUBLE, SINGLE};

// Stores the single nearest to a double of the area.
fn store_single(out: &mut [u8], at: usize, area: &[u8], from: usize, big: bool)
    requires { (at + 4 ≤ length out.old) × (from + 8 ≤ length area.now) }
    ensures { out.new ≡ store_at out.old at (single_bytes big (number_at 8 area.now from)) }
{
    let s = real::narrow(super::double_at(area, from));
    let bytes = if big {
        s.to_be_bytes()
    } else {
        s.to_le_bytes()
    };
    out[at..at + SINGLE].copy_from_slice(&bytes);
}

// Stores n doubles of the area as singles.
fn store_singles(out: &mut [u8], at: usize, area: &[u8], start: usize, n: usize, big: bool)
    requires { (at + n * 4 ≤ length out.old) × (start + n * 8 ≤ length area.now) }
    ensures { out.new
        ≡ store_at out.old at (stored (Reals true big) n (integers_in n (drop start area.now))) }
{
    for i in 0..n {
        store_single(out, at + i * SINGLE, area, start + i * DOUBLE, big);
    }
}

// Stores n doubles of the area as a field has them.
pub fn store(
    out: &mut [u8],
    at: usize,
    area: &[u8],
    start: usize,
    n: usize,
    single: bool,
    big: bool,
)
    requires { (at + n * real_size single ≤ length out.old) × (start + n * 8 ≤ length area.now) }
    ensures { out.new
        ≡ store_at out.old at (stored (Reals single big) n (integers_in n (drop start area.now))) }
{
    if single {
        return store_singles(out, at, area, start, n, big);
    }
    integers::store::store(out, at, area, start, n, DOUBLE, big)
}
