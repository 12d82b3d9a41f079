// Reals, `r R q Q`, read. Of a field of `q Q` the area gets the bytes, the highest first; of one of `r R` those of each
// single's double.
ghost use Rattle.std.specs.Prelude.{◌≡◌, Bool, true, ◌+◌, ◌*◌, ◌≤◌, length};
ghost use Rattle.layout.specs.Layout.{real_size};
ghost use Rattle.record.specs.Bytes.{part, store_at, number, ordered};
ghost use Rattle.reals.specs.inside.load.{double_bytes, reals_at};

use super::{DOUBLE, SINGLE};
use byte_runs::big_endian;

// A single of a field, as a number.
fn single_at(input: &[u8], at: usize, big: bool) -> u32
    requires { at + 4 ≤ length input.now }
    ensures { result ≡ number 256 (ordered big (part input.now at 4)) }
{
    byte_runs::four_at(input, at, big) as u32
}

// Reads the double of one single.
fn load_single(area: &mut [u8], to: usize, input: &[u8], at: usize, big: bool)
    requires { (to + 8 ≤ length area.old) × (at + 4 ≤ length input.now) }
    ensures { area.new ≡ store_at area.old to (double_bytes big (part input.now at 4)) }
{
    let d = real::widen(single_at(input, at, big));
    big_endian::put_number(area, to, DOUBLE, d);
}

// Reads the doubles of n singles.
fn load_singles(area: &mut [u8], to: usize, input: &[u8], at: usize, n: usize, big: bool)
    requires { (to + n * 8 ≤ length area.old) × (at + n * 4 ≤ length input.now) }
    ensures { (u : Bool) → area.new ≡ store_at area.old to (reals_at true big u n input.now at) }
{
    for i in 0..n {
        load_single(area, to + i * DOUBLE, input, at + i * SINGLE, big);
    }
}

// Reads n reals, with the flag or without.
pub fn load(area: &mut [u8], to: usize, input: &[u8], at: usize, n: usize, single: bool, big: bool)
    requires { (to + n * 8 ≤ length area.old) × (at + n * real_size single ≤ length input.now) }
    ensures { (u : Bool) → area.new ≡ store_at area.old to (reals_at single big u n input.now at) }
{
    if single {
        return load_singles(area, to, input, at, n, big);
    }
    integers::load::load(area, to, input, at, n, DOUBLE, big, true)
}
