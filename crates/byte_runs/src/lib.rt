// Runs of bytes, copied and filled, and four bytes as a number. A run is handed on whole, with the place of what is
// written or read: a contract says of all of it what it holds afterwards.
#![tactic(auto)]

ghost use Rattle.std.specs.Prelude.{◌≡◌, ◌+◌, ◌≤◌, ◌<◌, length, replicate};
ghost use Rattle.record.specs.Bytes.{part, store_at, digits, ordered};

// Numbers as bytes, the highest first.
pub mod big_endian;

// Copies n bytes.
pub fn copy(out: &mut [u8], at: usize, from: &[u8], start: usize, n: usize)
    requires { (at + n ≤ length out.old) × (start + n ≤ length from.now) }
    ensures { out.new ≡ store_at out.old at (part from.now start n) }
{
    out[at..at + n].copy_from_slice(&from[start..start + n]);
}

// Stores a byte n times.
pub fn fill(out: &mut [u8], at: usize, n: usize, value: u8)
    requires { at + n ≤ length out.old }
    ensures { out.new ≡ store_at out.old at (replicate n value) }
{
    out[at..at + n].fill(value);
}

// Four bytes as a number: the first in the lowest place, or in the highest.
pub fn four_at(from: &[u8], at: usize, high: bool) -> usize
    requires { at + 4 ≤ length from.now }
    ensures { (result < 4294967296) × (digits 256 4 result ≡ ordered high (part from.now at 4)) }
{
    let four = [from[at], from[at + 1], from[at + 2], from[at + 3]];
    let x = if high {
        u32::from_be_bytes(four)
    } else {
        u32::from_le_bytes(four)
    };
    x as usize
}
