// What storing and reading the integers of `c s S i I w W` share: bytes copied in their order or turned round, and runs
// of eight. Runs go whole, with a place in each, since contracts say what the rest of a run holds; and loops go by
// index, since two runs go at two paces.
#![tactic(auto)]

ghost use Rattle.std.specs.Prelude.{◌≡◌, true, ◌+◌, ◌*◌, ◌^◌, ◌≤◌, ◌<◌, length, drop};
ghost use Rattle.record.specs.Bytes.{part, store_at, number, ordered};
ghost use Rattle.integers.specs.inside.Eights.{eights};

use byte_runs::big_endian;

// Integers stored.
pub mod store;
// Integers read.
pub mod load;

// The number that w bytes make, the low one first or, where `big` says so, last.
fn number_at(bytes: &[u8], at: usize, w: usize, big: bool) -> u64
    requires { (w ≤ 8) × (at + w ≤ length bytes.now) }
    ensures { (result ≡ number 256 (ordered big (part bytes.now at w))) × (result < 256 ^ w) }
{
    if big {
        return big_endian::number_at(bytes, at, w);
    }
    let mut eight = [0; record::INTEGER_SIZE];
    eight[..w].copy_from_slice(&bytes[at..at + w]);
    u64::from_le_bytes(eight)
}

// Copies n bytes, turned round or not: as a number, so that the compiler loads and stores them at once.
fn copy_ordered(out: &mut [u8], at: usize, from: &[u8], start: usize, n: usize, turn: bool)
    requires { (n ≤ 8) × (at + n ≤ length out.old) × (start + n ≤ length from.now) }
    ensures { out.new ≡ store_at out.old at (ordered turn (part from.now start n)) }
{
    let x = number_at(from, start, n, turn);
    out[at..at + n].copy_from_slice(&x.to_le_bytes()[..n]);
}

// Copies n runs of eight bytes, each turned round.
fn turn_each(out: &mut [u8], at: usize, from: &[u8], start: usize, n: usize)
    requires { (at + n * 8 ≤ length out.old) × (start + n * 8 ≤ length from.now) }
    ensures { out.new ≡ store_at out.old at (eights true n (drop start from.now)) }
{
    for i in 0..n {
        copy_ordered(out, at + i * 8, from, start + i * 8, 8, true);
    }
}

// Copies n runs of eight bytes, each turned round or not.
pub fn copy_eights(out: &mut [u8], at: usize, from: &[u8], start: usize, n: usize, turn: bool)
    requires { (at + n * 8 ≤ length out.old) × (start + n * 8 ≤ length from.now) }
    ensures { out.new ≡ store_at out.old at (eights turn n (drop start from.now)) }
{
    if turn {
        return turn_each(out, at, from, start, n);
    }
    byte_runs::copy(out, at, from, start, n * 8)
}
