// `r R q Q`: reals. The area has a double of eight bytes for each, the highest byte first. Here are a double of the
// area as a number, and whether one of many is a NaN. Runs go whole, with a place in each, and loops by index, as for
// integers.
#![tactic(auto)]

ghost use Rattle.std.specs.Prelude.{◌≡◌, ◌+◌, ◌*◌, ◌≤◌, length, drop};
ghost use Rattle.record.specs.Bytes.{number_at};
ghost use Rattle.record.specs.Table.{integers_in};
ghost use Rattle.record.specs.Packing.{no_nan};

// Reals stored.
pub mod store;
// Reals read.
pub mod load;

// The bytes of a single and of a double.
pub const SINGLE: usize = 4;

pub const DOUBLE: usize = 8;

// A double of the area. It is loaded low byte first and then turned: where a remainder is taken of the number, as
// `real::narrow` does, the compiler joins no loads that begin with the high byte.
pub fn double_at(area: &[u8], at: usize) -> u64
    requires { at + 8 ≤ length area.now }
    ensures { result ≡ number_at 8 area.now at }
{
    u64::from_le_bytes(area[at..at + DOUBLE].try_into().unwrap()).swap_bytes()
}

// None of n doubles of the area is a NaN.
pub fn no_nan(area: &[u8], start: usize, n: usize) -> bool
    requires { start + n * 8 ≤ length area.now }
    ensures { result ≡ no_nan (integers_in n (drop start area.now)) }
{
    for i in 0..n {
        if real::is_nan(double_at(area, start + i * DOUBLE)) {
            return false;
        }
    }
    true
}
