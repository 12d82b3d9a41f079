// Binary and hex digits, `b B h H`, stored. By index: record and digits go at two paces. The record goes whole, with a
// place in it: the fields after this one are part of it.
ghost use Rattle.std.specs.Prelude.{◌≡◌, true, false, ◌+◌, ◌*◌, ◌/◌, ◌%◌, ◌^◌, ◌≤◌, ◌<◌};
ghost use Rattle.std.specs.Prelude.{length, take, get_or, set, map};
ghost use Rattle.layout.specs.declared.Shape.TheVariants.{Digits};
ghost use Rattle.record.specs.Bytes.{store_at, ceil_div};
ghost use Rattle.record.specs.Table.{max_area};
ghost use Rattle.record.specs.Packing.{digit_value, all_digits, stored};
ghost use Rattle.digits.specs.Steps.{storing, steps, Advanced, binary_steps, binary_budget};
ghost use Rattle.digits.specs.inside.Numerals.{place_of, AreDigits};
ghost use Rattle.digits.specs.inside.store.{so_far};

use super::Numeral;

impl Numeral {
    // A binary digit, the number q of those that are there and 0 past them, in the place of the number j.
    fn bit_at(self, digits: &[u8], q: usize, j: usize) -> u8
        requires { (self.hex ≡ false) × (j < 8) × AreDigits false digits.now }
        ensures { result ≡ get_or (map digit_value digits.now) q 0 * 2 ^ place_of self.high 8 j }
    {
        self.digit_at(digits, q) << self.place(j)
    }
}

// Adds the digit number j to the byte of which the digits before it are stored.
fn add_bit(out: &mut [u8], place: usize, bit: u8, j: usize)
    requires { place < length out.old }
    ensures { out.new ≡ set out.old place ((so_far j out.old place + bit) % 256) }
{
    if j == 0 {
        out[place] = bit;
    } else {
        out[place] = out[place].wrapping_add(bit);
    }
}

// THE STEP number k in storing n binary digits, of which these are there: the eight of a whole byte where eight remain,
// and else one. It sets one byte of the record. `eight` says which it is, and `full` that the eight are all there: the
// callers know it, and so the compiler does.
fn store_step(
    out: &mut [u8],
    at: usize,
    digits: &[u8],
    n: usize,
    k: usize,
    eight: bool,
    full: bool,
    high: bool,
)
    requires { (n ≤ max_area) × (length digits.now ≤ n) × (at + ceil_div n 8 ≤ length out.old)
        × AreDigits false digits.now × (k < binary_steps n) × (eight ≡ true → k < n / 8)
        × (eight ≡ false → n / 8 ≤ k) × (full ≡ true → 8 * k + 8 ≤ length digits.now) }
    ensures { Advanced (storing high digits.now at) n k (k + 1) out.old out.new }
{
    let binary = Numeral { hex: false, high };
    if full {
        out[at + k] = super::bytes::eight_byte(&digits[8 * k..8 * k + 8], high);
    } else if eight {
        out[at + k] = binary.next_byte(digits, 8 * k);
    } else {
        let whole = n / 8;
        let j = k - whole;
        add_bit(out, at + whole, binary.bit_at(digits, 8 * whole + j, j), j);
    }
}

// Does the steps from the number `from` on up to `until`, one in each turn.
fn store_run(
    out: &mut [u8],
    at: usize,
    digits: &[u8],
    n: usize,
    from: usize,
    until: usize,
    eight: bool,
    full: bool,
    high: bool,
)
    requires { (n ≤ max_area) × (length digits.now ≤ n) × (at + ceil_div n 8 ≤ length out.old)
        × AreDigits false digits.now × (from ≤ until) × (until ≤ binary_steps n) × (eight ≡ true → until ≤ n / 8)
        × (eight ≡ false → from < until → n / 8 ≤ from) × (full ≡ true → 8 * until ≤ length digits.now) }
    ensures { Advanced (storing high digits.now at) n from until out.old out.new }
{
    for k in from..until {
        store_step(out, at, digits, n, k, eight, full, high);
    }
}

// Stores n binary digits, padding counted, as far as a budget of steps goes, whatever it is: the steps over bytes whose
// digits are all there, those over whole bytes with padding, and then those over the digits that are left.
pub fn store_steps(out: &mut [u8], at: usize, given: &[u8], n: usize, high: bool, budget: usize)
    requires { (n ≤ max_area) × (at + ceil_div n 8 ≤ length out.old) × (all_digits false (take n given.now) ≡ true) }
    ensures { out.new ≡ (steps (storing high given.now at) n out.old budget).bytes }
{
    let digits = &given[..n.min(given.len())];
    let whole = n / 8;
    let all = (whole + n % 8).min(budget); // the steps to do
    let eights = whole.min(budget); // of these, over whole bytes
    let fulls = (digits.len() / 8).min(budget); // and of these, over bytes without padding
    store_run(out, at, digits, n, 0, fulls, true, true, high);
    store_run(out, at, digits, n, fulls, eights, true, false, high);
    store_run(out, at, digits, n, eights, all, false, false, high)
}

// Stores n binary digits, padding counted, by a budget that is enough for all of them.
pub fn store_binary(out: &mut [u8], at: usize, given: &[u8], n: usize, high: bool)
    requires { (n ≤ max_area) × (at + ceil_div n 8 ≤ length out.old) × (all_digits false (take n given.now) ≡ true) }
    ensures within { out.new ≡ (steps (storing high given.now at) n out.old (binary_budget n)).bytes }
    ensures effect { out.new ≡ store_at out.old at (stored (Digits false high) n given.now) }
{
    store_steps(out, at, given, n, high, n / 8 + super::SPARE)
}

// Stores n hex digits, padding counted, a byte in each turn. (`div_ceil` in place of the sum costs eight instructions
// more a call.)
pub fn store_hex(out: &mut [u8], at: usize, given: &[u8], n: usize, high: bool)
    requires { (n ≤ max_area) × (at + ceil_div n 2 ≤ length out.old) × (all_digits true (take n given.now) ≡ true) }
    ensures { out.new ≡ store_at out.old at (stored (Digits true high) n given.now) }
{
    let hex = Numeral { hex: true, high };
    let digits = &given[..n.min(given.len())];
    for k in 0..(n + 1) / 2 {
        out[at + k] = hex.next_byte(digits, 2 * k);
    }
}
