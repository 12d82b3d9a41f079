// Binary and hex digits, `b B h H`: which characters are digits, and where a digit stands in its byte.
#![tactic(auto)]

ghost use Rattle.std.specs.Prelude.{◌≡◌, ◌<◌, ltb};
ghost use Rattle.record.specs.Geometry.{base, per_byte};
ghost use Rattle.record.specs.Packing.{digit_value, all_digits};
ghost use Rattle.digits.specs.inside.Numerals.{place_of};

use slot_table::sizes;

// The byte that digits make.
mod bytes;
// Digits stored.
pub mod store;
// The characters of a byte's digits.
mod chars;
// Digits read.
pub mod load;

// The most binary digits that are left after whole bytes: the budget has as many steps for them.
pub const SPARE: usize = 7;

// The digits of a field: whether they are hex or binary, and whether a byte's first digit is its highest or its lowest.
#[derive(Clone, Copy)]
struct Numeral {
    hex: bool,
    high: bool,
}

impl Numeral {
    // How many digits fill a byte.
    fn per_byte(self) -> usize
        ensures { result ≡ per_byte self.hex }
    {
        sizes::per_byte(self.hex)
    }

    // Where the digit number j of a byte stands, from the lowest.
    fn place(self, j: usize) -> usize
        requires { j < per_byte self.hex }
        ensures value { result ≡ place_of self.high (per_byte self.hex) j }
        ensures inside { result < per_byte self.hex }
    {
        if self.high {
            self.per_byte() - 1 - j
        } else {
            j
        }
    }
}

fn is_digit(c: u8, hex: bool) -> bool
    ensures { result ≡ ltb (digit_value c) (base hex) }
{
    if hex {
        c.is_ascii_hexdigit()
    } else {
        c == b'0' || c == b'1'
    }
}

// Whether all of these are digits. The loop looks at each: without an exit it is done many bytes at a time.
pub fn all_digits(chars: &[u8], hex: bool) -> bool
    ensures { result ≡ all_digits hex chars.now }
{
    let mut good = true;
    for &c in chars {
        good &= is_digit(c, hex);
    }
    good
}
