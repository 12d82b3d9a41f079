// The byte that binary or hex digits make, `b B h H`.
ghost use Rattle.std.specs.Prelude.{◌≡◌, false, ◌∷◌, [], map, ◌≤◌, ◌<◌, length, drop, get_or};
ghost use Rattle.record.specs.Bytes.{part, fit, number, ordered};
ghost use Rattle.record.specs.Table.{max_area};
ghost use Rattle.record.specs.Geometry.{base};
ghost use Rattle.record.specs.Packing.{digit_value};
ghost use Rattle.digits.specs.inside.Numerals.{AreDigits};
ghost use Rattle.digits.specs.inside.bytes.{byte_of};

use super::Numeral;

impl Numeral {
    // The value of a digit: its low bits, and 9 more for a letter.
    fn value(self, c: u8) -> u8
        requires { digit_value c < base self.hex }
        ensures { result ≡ digit_value c }
    {
        if self.hex {
            c % 16 + 9 * (c / 64)
        } else {
            c % 2
        }
    }

    // The value of the digit number q of those that are there, 0 past them.
    pub fn digit_at(self, digits: &[u8], q: usize) -> u8
        requires { AreDigits self.hex digits.now }
        ensures value { result ≡ get_or (map digit_value digits.now) q 0 }
        ensures below { result < base self.hex }
    {
        if q < digits.len() {
            self.value(digits[q])
        } else {
            0
        }
    }

    // The number that four binary digits make, from the number `first` on.
    fn half(self, digits: &[u8], first: usize) -> u8
        requires { (self.hex ≡ false) × (first ≤ 4) × AreDigits false digits.now }
        ensures value { result ≡ number 2 (ordered self.high (part (fit 8 0 (map digit_value digits.now)) first 4)) }
        ensures below { result < 16 }
    {
        let a = self.digit_at(digits, first);
        let b = self.digit_at(digits, first + 1);
        let c = self.digit_at(digits, first + 2);
        let d = self.digit_at(digits, first + 3);
        if self.high {
            d + 2 * c + 4 * b + 8 * a
        } else {
            a + 2 * b + 4 * c + 8 * d
        }
    }

    // The byte that digits make, with 0 for each that is missing. There is no loop in it.
    fn byte_of(self, digits: &[u8]) -> u8
        requires { AreDigits self.hex digits.now }
        ensures { result ≡ byte_of self.hex self.high (map digit_value digits.now) }
    {
        if self.hex {
            joined(
                self.digit_at(digits, 0),
                self.digit_at(digits, 1),
                self.high,
            )
        } else {
            joined(self.half(digits, 0), self.half(digits, 4), self.high)
        }
    }

    // The byte of the digits from the number i on, with 0 for each that is not there.
    pub fn next_byte(self, digits: &[u8], i: usize) -> u8
        requires { (i ≤ max_area) × AreDigits self.hex digits.now }
        ensures { result ≡ byte_of self.hex self.high (drop i (map digit_value digits.now)) }
    {
        let per = self.per_byte();
        if i + per <= digits.len() {
            self.byte_of(&digits[i..i + per])
        } else if i < digits.len() {
            self.byte_of(&digits[i..])
        } else {
            0
        }
    }
}

// The byte of two halves, of which the first is the higher one or the lower.
fn joined(first: u8, second: u8, high: bool) -> u8
    requires { (first < 16) × (second < 16) }
    ensures { result ≡ number 16 (ordered high (first ∷ second ∷ [])) }
{
    if high {
        first * 16 + second
    } else {
        first + second * 16
    }
}

// The number that four binary digits make, from their characters: one product moves each to its place, in either order.
fn gathered(four: &[u8], high: bool) -> u8
    requires { (length four.now ≡ 4) × AreDigits false four.now }
    ensures value { result ≡ number 2 (ordered high (map digit_value four.now)) }
    ensures below { result < 16 }
{
    let x = u64::from(u32::from_le_bytes([four[0], four[1], four[2], four[3]]));
    let mover = if high { 0x08040201 } else { 0x01020408 };
    ((x - 0x30303030) * mover / 16777216 % 16) as u8
}

// The byte that eight binary digits make.
pub fn eight_byte(eight: &[u8], high: bool) -> u8
    requires { (length eight.now ≡ 8) × AreDigits false eight.now }
    ensures { result ≡ byte_of false high (map digit_value eight.now) }
{
    joined(
        gathered(&eight[..4], high),
        gathered(&eight[4..], high),
        high,
    )
}
