// `c s S i I w W`, stored: from integers of eight big-endian bytes in the area into fields of 1 to 8 bytes. A field's
// bytes are the last ones of an item, in their order where the field is big-endian, else turned round.
ghost use Rattle.std.specs.Prelude.{◌≡◌, ◌+◌, ◌*◌, ◌≤◌, length, drop};
ghost use Rattle.layout.specs.declared.Shape.TheVariants.{Integers};
ghost use Rattle.record.specs.Bytes.{store_at};
ghost use Rattle.record.specs.Table.{integers_in};
ghost use Rattle.record.specs.Packing.{stored};

// Stores the w low-order bytes of each of n integers of the area, one after the other. Callers have a constant for w,
// so that the turn of each width becomes a loop of its own.
fn store_each(out: &mut [u8], at: usize, area: &[u8], start: usize, n: usize, w: usize, big: bool)
    requires { (w ≤ 8) × (at + n * w ≤ length out.old) × (start + n * 8 ≤ length area.now) }
    ensures { out.new
        ≡ store_at out.old at (stored (Integers w big) n (integers_in n (drop start area.now))) }
{
    for i in 0..n {
        super::copy_ordered(out, at + i * w, area, start + i * 8 + (8 - w), w, !big);
    }
}

// Stores the w low-order bytes of each of n integers of the area. One alone, the usual field, is spared the loop.
pub fn store(out: &mut [u8], at: usize, area: &[u8], start: usize, n: usize, w: usize, big: bool)
    requires { (w ≤ 8) × (at + n * w ≤ length out.old) × (start + n * 8 ≤ length area.now) }
    ensures { out.new
        ≡ store_at out.old at (stored (Integers w big) n (integers_in n (drop start area.now))) }
{
    if n == 1 {
        return super::copy_ordered(out, at, area, start + (8 - w), w, !big);
    }
    if w == 8 {
        return super::copy_eights(out, at, area, start, n, !big);
    }
    store_each(out, at, area, start, n, w, big)
}
