// `c s S i I w W`, read: from fields of 1 to 8 bytes into integers of eight big-endian bytes in the area. A field's
// bytes are the last ones of an item, in their order where the field is big-endian, else turned round.
ghost use Rattle.std.specs.Prelude.{◌≡◌, true, ◌+◌, ◌*◌, ◌^◌, ◌≤◌, ◌<◌, length};
ghost use Rattle.layout.specs.declared.Shape.TheVariants.{Integers};
ghost use Rattle.record.specs.Bytes.{part, store_at, number, ordered};
ghost use Rattle.record.specs.Table.{integer_bytes};
ghost use Rattle.record.specs.Reading.{loaded, widened};
ghost use Rattle.integers.specs.inside.load.{Width, Narrow, item_bytes};

use byte_runs::big_endian;

// An integer of w bytes with eight: its sign goes on.
fn widened(x: u64, w: usize, unsigned: bool) -> u64
    requires { (0 < w) × (w < 8) × (x < 256 ^ w) }
    ensures { result ≡ widened w unsigned x }
{
    if unsigned {
        return x;
    }
    let half: u64 = 1 << (8 * w - 1);
    (x ^ half).wrapping_sub(half)
}

// Reads one integer of four bytes: they go, the high one first, behind four bytes of their sign, so that their eight
// bytes are one store and runs of them are done many at a time.
fn load_four(area: &mut [u8], to: usize, input: &[u8], at: usize, big: bool, unsigned: bool)
    requires { (to + 8 ≤ length area.old) × (at + 4 ≤ length input.now) }
    ensures { area.new ≡ store_at area.old to (item_bytes 4 big unsigned (part input.now at 4)) }
{
    let four = byte_runs::four_at(input, at, !big) as u32;
    let sign = if unsigned { 0 } else { four % 256 / 128 };
    let fill = 0u32.wrapping_sub(sign);
    let eight = u64::from(fill) + (u64::from(four) << 32);
    area[to..to + 8].copy_from_slice(&eight.to_le_bytes());
}

// Reads one integer of a width below eight: as a number, but for those of four bytes whose bytes alone are quicker.
fn load_item(
    area: &mut [u8],
    to: usize,
    input: &[u8],
    at: usize,
    w: usize,
    big: bool,
    unsigned: bool,
)
    requires { Narrow w × (to + 8 ≤ length area.old) × (at + w ≤ length input.now) }
    ensures { area.new ≡ store_at area.old to (item_bytes w big unsigned (part input.now at w)) }
{
    if w == 4 && (big || unsigned) {
        return load_four(area, to, input, at, big, unsigned);
    }
    let x = super::number_at(input, at, w, big);
    big_endian::put_number(area, to, record::INTEGER_SIZE, widened(x, w, unsigned));
}

// Reads n integers of a width below eight. Callers have constants for the width and the order, so that the turn of each
// becomes a loop of its own.
fn load_each(
    area: &mut [u8],
    to: usize,
    input: &[u8],
    at: usize,
    n: usize,
    w: usize,
    big: bool,
    unsigned: bool,
)
    requires { Narrow w × (to + n * 8 ≤ length area.old) × (at + n * w ≤ length input.now) }
    ensures { area.new
        ≡ store_at area.old to
        (integer_bytes (loaded (Integers w big) unsigned n (part input.now at (n * w))).items) }
{
    for i in 0..n {
        load_item(area, to + i * 8, input, at + i * w, w, big, unsigned);
    }
}

// Reads n unsigned integers of a width below eight. (Where both calls of `load` are of one function the compiler joins
// them again, and the loop then tests the flag.)
fn load_unsigned(area: &mut [u8], to: usize, input: &[u8], at: usize, n: usize, w: usize, big: bool)
    requires { Narrow w × (to + n * 8 ≤ length area.old) × (at + n * w ≤ length input.now) }
    ensures { area.new
        ≡ store_at area.old to
        (integer_bytes (loaded (Integers w big) true n (part input.now at (n * w))).items) }
{
    load_each(area, to, input, at, n, w, big, true)
}

// Reads n integers of w bytes each.
pub fn load(
    area: &mut [u8],
    to: usize,
    input: &[u8],
    at: usize,
    n: usize,
    w: usize,
    big: bool,
    unsigned: bool,
)
    requires { Width w × (to + n * 8 ≤ length area.old) × (at + n * w ≤ length input.now) }
    ensures { area.new
        ≡ store_at area.old to
        (integer_bytes (loaded (Integers w big) unsigned n (part input.now at (n * w))).items) }
{
    if w == 8 {
        return super::copy_eights(area, to, input, at, n, !big);
    }
    if unsigned {
        return load_unsigned(area, to, input, at, n, w, big);
    }
    load_each(area, to, input, at, n, w, big, false)
}
