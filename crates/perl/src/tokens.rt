// Letters, counts and repeats of a template.
ghost use Rattle.std.specs.Prelude.{◌≡◌, ◌≤◌};
ghost use Rattle.perl.specs.Tokens.{max_template_count, letter_of, number_in, digits_in, repeat_of};

// What a Perl letter stands for in a layout: our letter, and whether the flag `u` follows it.
#[derive(Clone, Copy)]
pub struct Letter {
    pub byte: u8,
    pub unsigned: bool,
}

// The limits of a template.
pub const MAX_DEPTH: usize = 8;

pub const MAX_REPEAT: u32 = 64;

pub const MAX_TEMPLATE_COUNT: u32 = 4096;

// A number that was read, 0 where none stands, and how many digits it has.
#[derive(Clone, Copy)]
pub struct Numeral {
    pub value: u32,
    pub digits: usize,
}

#[tactic(auto, unfolding(crate::specs::Tokens::letter_of))]
pub fn letter_of(c: u8) -> Option<Letter>
    ensures { result ≡ letter_of c }
{
    let (byte, unsigned) = match c {
        b'a' | b'b' | b'B' | b'h' | b'H' | b'x' => (c, false),
        b'C' => (b'c', true),
        b'n' => (b'S', true),
        b'N' => (b'I', true),
        b'v' => (b's', true),
        b'V' => (b'i', true),
        _ => return None,
    };
    Some(Letter { byte, unsigned })
}

// The number from 1 to the limit in front, as far as its digits go.
pub fn number(text: &[u8], limit: u32) -> Numeral
    requires { limit ≤ max_template_count }
    ensures { (result.value ≡ number_in limit 0 text.now) × (result.digits ≡ digits_in limit 0 text.now) }
{
    let mut value: u32 = 0;
    for (digits, c) in text.iter().enumerate() {
        if !c.is_ascii_digit() {
            return Numeral { value, digits };
        }
        let more = 10 * value + u32::from(*c - b'0');
        if more == 0 || limit < more {
            return Numeral { value, digits };
        }
        value = more;
    }
    Numeral {
        value,
        digits: text.len(),
    }
}

// How often a group is written: once where no number stands.
pub fn repeat_of(v: u32) -> usize
    ensures { result ≡ repeat_of v }
{
    v.max(1) as usize
}
