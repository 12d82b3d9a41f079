// Binary and hex digits: the characters of a byte's digits, written.
ghost use Rattle.std.specs.Prelude.{◌≡◌, false, ◌++◌, ◌<◌, length, reverse, get_or};
ghost use Rattle.record.specs.Bytes.{digits};
ghost use Rattle.record.specs.Geometry.{base, per_byte};
ghost use Rattle.record.specs.Reading.{digit_char};
ghost use Rattle.digits.specs.inside.chars.{chars_of, four_chars};

use super::Numeral;

impl Numeral {
    // The digit number q of a byte, from the lowest.
    fn digit(self, b: u8, q: usize) -> u8
        requires { q < per_byte self.hex }
        ensures value { result ≡ get_or (digits (base self.hex) (per_byte self.hex) b) q 0 }
        ensures below { result < 16 }
    {
        if self.hex {
            (b >> (4 * q)) % 16
        } else {
            (b >> q) % 2
        }
    }

    // The character of the digit number j of a byte.
    pub fn char_at(self, b: u8, j: usize) -> u8
        requires { j < per_byte self.hex }
        ensures { result ≡ get_or (chars_of self.hex self.high b) j 0 }
    {
        char_of(self.digit(b, self.place(j)))
    }
}

fn char_of(d: u8) -> u8
    requires { d < 16 }
    ensures { result ≡ digit_char d }
{
    if d < 10 { d + b'0' } else { d + (b'a' - 10) }
}

// The characters of four binary digits, the lowest first, as the bytes of a number. From a table the compiler loads and
// stores them at once.
#[tactic(auto, unfolding(record::specs::Bytes::digits, crate::specs::inside::chars::four_chars))]
fn low_first(n: u8) -> u32
    requires { n < 16 }
    ensures { digits 256 4 result ≡ four_chars n }
{
    match n {
        0 => 0x30303030,
        1 => 0x30303031,
        2 => 0x30303130,
        3 => 0x30303131,
        4 => 0x30313030,
        5 => 0x30313031,
        6 => 0x30313130,
        7 => 0x30313131,
        8 => 0x31303030,
        9 => 0x31303031,
        10 => 0x31303130,
        11 => 0x31303131,
        12 => 0x31313030,
        13 => 0x31313031,
        14 => 0x31313130,
        _ => 0x31313131,
    }
}

// The same with the highest first: a table of their own costs less than turning the bytes round.
#[tactic(auto, unfolding(record::specs::Bytes::digits, crate::specs::inside::chars::four_chars))]
fn high_first(n: u8) -> u32
    requires { n < 16 }
    ensures { digits 256 4 result ≡ reverse (four_chars n) }
{
    match n {
        0 => 0x30303030,
        1 => 0x31303030,
        2 => 0x30313030,
        3 => 0x31313030,
        4 => 0x30303130,
        5 => 0x31303130,
        6 => 0x30313130,
        7 => 0x31313130,
        8 => 0x30303031,
        9 => 0x31303031,
        10 => 0x30313031,
        11 => 0x31313031,
        12 => 0x30303131,
        13 => 0x31303131,
        14 => 0x30313131,
        _ => 0x31313131,
    }
}

// Writes the four bytes of a number and those of another, the lowest first.
fn put_fours(eight: &mut [u8], first: u32, second: u32)
    requires { length eight.old ≡ 8 }
    ensures { eight.new ≡ digits 256 4 first ++ digits 256 4 second }
{
    eight[..4].copy_from_slice(&first.to_le_bytes());
    eight[4..].copy_from_slice(&second.to_le_bytes());
}

// Writes all eight binary digits of a byte.
pub fn write_eight(eight: &mut [u8], b: u8, high: bool)
    requires { length eight.old ≡ 8 }
    ensures { eight.new ≡ chars_of false high b }
{
    let (low, top) = (b % 16, b / 16);
    if high {
        put_fours(eight, high_first(top), high_first(low))
    } else {
        put_fours(eight, low_first(low), low_first(top))
    }
}
