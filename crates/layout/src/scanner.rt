// The pieces of a layout's text: spaces, type characters, flags and counts, each read from a place on.
ghost use Rattle.std.specs.Prelude.{◌≡◌, ◌+◌, ◌-◌, ◌*◌, ◌≤◌, ◌<◌, min, length};
ghost use Rattle.layout.specs.Layout.{to_nat, type_of};
ghost use Rattle.layout.specs.Codes.{type_numbered};
ghost use Rattle.layout.specs.inside.Parsing.{over_count, HasType, SpacesEnd, NumberAt, CountAt, TailAt};

// The limit of a count, where a larger one is held, and the number that the largest has in a
// code.
const MAX_COUNT: u32 = 32768;

const OVER_COUNT: u32 = MAX_COUNT + 1;

pub const LAST_COUNT: u32 = MAX_COUNT + 2;

// A number that was read, and the place after it.
#[derive(Clone, Copy)]
struct Numeral {
    value: u32,
    next: usize,
}

// What follows a type character: whether the flag stands there, the number of the count, held, and the place after
// them.
#[derive(Clone, Copy)]
pub struct Tail {
    pub flag: bool,
    pub value: u32,
    pub next: usize,
}

// The number of the type whose character stands n places after `@`; above the last where there is none. The arm of 28
// fills gaps, so that the compiler makes a table.
fn letter(n: u8) -> u8
    ensures { (type_of (n + 64) ≡ type_numbered result) × HasType result × (result ≤ 28) }
{
    match n {
        0 => 26, // @
        1 => 1, // A
        2 => 3, // B
        8 => 5, // H
        9 => 11, // I
        17 => 17, // Q
        18 => 15, // R
        19 => 9, // S
        23 => 13, // W
        24 => 25, // X
        33 => 0, // a
        34 => 2, // b
        35 => 6, // c
        40 => 4, // h
        41 => 10, // i
        49 => 16, // q
        50 => 14, // r
        51 => 8, // s
        55 => 12, // w
        56 => 24, // x
        3..=7 | 36..=39 | 42 | 63 => 28,
        _ => 27,
    }
}

// The number of the type that a byte of the text names; above the last where it names none (no option: the number is
// compared with the last one alone). All type characters are
// among the 64 from `@` on.
pub fn type_number(c: u8) -> u32
    ensures { (type_of c ≡ type_numbered result) × HasType result }
{
    let n = letter(c % 64) as u32;
    if c / 64 == 1 { n } else { n + 32 }
}

// The place after the spaces from `at` on. A `while`: a `for` over the places takes an instruction more a byte.
pub fn spaces_end(text: &[u8], at: usize) -> usize
    requires { at ≤ length text.now }
    ensures { SpacesEnd text.now at result }
{
    let mut i = at;
    while i < text.len() && text[i] == b' ' {
        i += 1;
    }
    i
}

// A number with one digit more, held just above the limit.
fn more(v: u32, c: u8) -> u32
    requires { (v ≤ over_count) × (48 ≤ c) }
    ensures { result ≡ min over_count (10 * v + (c - 48)) }
{
    let n = 10 * v + u32::from(c - b'0');
    n.min(OVER_COUNT)
}

// The number that the decimal digits from `at` on make, held just above the limit, and the place after them.
fn number(text: &[u8], at: usize) -> Numeral
    requires { at ≤ length text.now }
    ensures { NumberAt text.now at result.value result.next }
{
    let mut value: u32 = 0;
    for i in at..text.len() {
        let c = text[i];
        if !c.is_ascii_digit() {
            return Numeral { value, next: i };
        }
        value = more(value, c);
    }
    Numeral {
        value,
        next: text.len(),
    }
}

// The number of the count that stands at `at`, held, and the place after it.
fn count_at(text: &[u8], at: usize) -> Numeral
    ensures { CountAt text.now at result.value result.next }
{
    if text.len() <= at {
        return Numeral { value: 0, next: at };
    }
    match text[at] {
        b'*' => Numeral {
            value: 1,
            next: at + 1,
        },
        b'0'..=b'9' => {
            let n = number(text, at);
            Numeral {
                value: n.value + 2,
                next: n.next,
            }
        }
        _ => Numeral { value: 0, next: at },
    }
}

// The flag and the count that stand at `at`, after a type character.
pub fn tail_at(text: &[u8], at: usize) -> Tail
    ensures { TailAt text.now at (to_nat result.flag) result.value result.next }
{
    if text.len() <= at {
        return Tail {
            flag: false,
            value: 0,
            next: at,
        };
    }
    let c = text[at];
    // Asked first, since a letter stands here most often: the next field's.
    if b'9' < c {
        let flag = c == b'u';
        if !flag {
            return Tail {
                flag: false,
                value: 0,
                next: at,
            };
        }
        let n = count_at(text, at + 1);
        return Tail {
            flag: true,
            value: n.value,
            next: n.next,
        };
    }
    let n = count_at(text, at);
    Tail {
        flag: false,
        value: n.value,
        next: n.next,
    }
}
