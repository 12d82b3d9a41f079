// Layouts: what a field is, the limits of a layout, and a field as one number, a code.
#![tactic(auto)]

ghost use Rattle.std.specs.Prelude.{◌≡◌, ◌^◌, ◌≤◌, ◌<◌};
ghost use Rattle.layout.specs.Refusals.{number_of};
ghost use Rattle.layout.specs.Codes.{last_digits, last_data, type_numbered, width_numbered, count_from, known};
ghost use Rattle.layout.specs.inside.Parsing.{size_numbered, FieldOf, slots_numbered};

// The pieces of a layout's text.
pub mod scanner;
// The layout reader, on whose contract alone packer and reader rely.
pub mod parser;

// The limit of a layout. A field has a byte at least, so that as many codes hold the fields of
// any layout.
pub const MAX_LAYOUT: usize = 256;

// The most bytes of a layout that is read into a small array: to clear the large one costs more than a small record.
pub const SHORT_LAYOUT: usize = 32;

// The types by number, each with its character: texts come first, then digits, then integers, then reals, and these
// take a slot. Of integers and reals an even number is little-endian and the next one big-endian. The moves stand
// after a gap that has room for further types. They stay numbers, as a plan hands them to its host and takes them back;
// passes go by the number of a type, and by that of a count, where a `Role` and a `Count` would have to be made first.
pub const TEXT_ZERO: u32 = 0; // a, padded with zero bytes

pub const TEXT_SPACE: u32 = 1; // A, padded with spaces

pub const BINARY_LOW: u32 = 2; // b, the first digit in the low bit

pub const BINARY_HIGH: u32 = 3; // B

pub const HEX_LOW: u32 = 4; // h, the first digit in the low half

pub const HEX_HIGH: u32 = 5; // H

pub const INT_8: u32 = 6; // c

// One byte has no order, so no character has this number: a plan that holds it is refused. Every pass would take it for
// `c`.
pub const INT_8_BIG: u32 = 7;

pub const INT_16: u32 = 8; // s

pub const INT_16_BIG: u32 = 9; // S

pub const INT_32: u32 = 10; // i

pub const INT_32_BIG: u32 = 11; // I

pub const INT_64: u32 = 12; // w

pub const INT_64_BIG: u32 = 13; // W

pub const SINGLE: u32 = 14; // r

pub const SINGLE_BIG: u32 = 15; // R

pub const DOUBLE: u32 = 16; // q

pub const DOUBLE_BIG: u32 = 17; // Q

pub const SKIP: u32 = 24; // x

pub const BACK: u32 = 25; // X

pub const GOTO: u32 = 26; // @

// The last type of each group.
pub const LAST_TEXT: u32 = TEXT_SPACE;

pub const LAST_BINARY: u32 = BINARY_HIGH;

pub const LAST_DIGITS: u32 = HEX_HIGH;

pub const LAST_INTEGERS: u32 = INT_64_BIG;

pub const LAST_SINGLE: u32 = SINGLE_BIG;

pub const LAST_DATA: u32 = DOUBLE_BIG;

pub const LAST_TYPE: u32 = GOTO;

// A code: the number of the type, one unit for the flag, and a unit for each of the count's number.
pub const FLAG_UNIT: u32 = 256;

pub const COUNT_UNIT: u32 = 2 * FLAG_UNIT;

// The form of a value that takes a slot.
#[derive(Clone, Copy)]
pub enum Shape {
    // a A: a string; the byte that pads it
    Text(u8),
    // b B h H: digits; whether hex, and whether the first stands highest
    Digits(bool, bool),
    // c s S i I w W: integers; the bytes of each, and whether the highest stands first
    Integers(usize, bool),
    // r R q Q: reals; whether singles or doubles, and whether the highest byte stands first
    Reals(bool, bool),
}

// x X @: what moves the cursor and takes no slot.
#[derive(Clone, Copy)]
pub enum Motion {
    Skip,
    Back,
    Goto,
}

// What a field does, by its type character.
#[derive(Clone, Copy)]
pub enum Role {
    Data(Shape),
    Move(Motion),
}

// What a call is refused with, in the order of the numbers (the table in include/curlew.h).
#[derive(Clone, Copy)]
pub enum Refusal {
    BadSize = 1,
    BadType = 2,
    BadCount = 3,
    BadMove = 4,
    BadSlots = 5,
    NotSet = 6,
    BadSlot = 7,
    WrongKind = 8,
    BadList = 9,
    BadDigit = 10,
    NoRoom = 11,
    BadSheet = 12,
    BadVersion = 13,
    BadMark = 14,
    BadTemplate = 15,
    BadReal = 16,
    OtherFields = 17,
    NotPlain = 18,
}

impl Refusal {
    // The refusal at a place.
    pub fn at(self, place: usize) -> Refused
        ensures { result ≡ record { why = self; place = place } }
    {
        Refused { why: self, place }
    }

    // The number that stands for a refusal in a reply.
    pub fn number(self) -> u32
        ensures { result ≡ number_of self }
    {
        self as u32
    }
}

#[derive(Clone, Copy)]
pub enum Count {
    Absent,
    Star,
    Times(usize),
}

#[derive(Clone, Copy)]
pub struct Field {
    pub role: Role,
    pub unsigned: bool,
    pub count: Count,
}

// Why a call is refused, and the place in what was given that it is refused for.
#[derive(Clone, Copy)]
pub struct Refused {
    pub why: Refusal,
    pub place: usize,
}

// How many fields a layout has, and how many of them take a slot.
#[derive(Clone, Copy)]
pub struct Fields {
    pub count: usize,
    pub slots: usize,
}

// A field that was found: its code, how many bytes follow its type character, and how many slots it takes.
#[derive(Clone, Copy)]
pub struct Item {
    pub code: u32,
    pub more: usize,
    pub slots: usize,
}

fn width(k: u32) -> usize
    ensures { result ≡ width_numbered k }
{
    if k < INT_16 {
        return 1;
    }
    if k < INT_32 {
        return 2;
    }
    if k < INT_64 { 4 } else { 8 }
}

// A type's number goes up by two for each power of two of its bytes, from `c` (one byte) on and again from `r` (four).
const INTEGER_POWERS: u32 = INT_8 / 2;

const REAL_POWERS: u32 = SINGLE / 2 - 2;

// The bytes of an item of type d, an integer or a real, as a power of two.
pub fn width_power(d: u32) -> u32
    requires { (last_digits < d) × (d ≤ last_data) }
    ensures { (2 ^ result ≡ size_numbered d) × (result ≤ 3) }
{
    if d <= LAST_INTEGERS {
        d / 2 - INTEGER_POWERS
    } else {
        d / 2 - REAL_POWERS
    }
}

fn type_numbered(k: u32) -> Option<Role>
    ensures { result ≡ type_numbered k }
{
    match k {
        0..=LAST_TEXT => Some(Role::Data(Shape::Text((32 * k) as u8))),
        ..=LAST_DIGITS => Some(Role::Data(Shape::Digits(LAST_BINARY < k, k % 2 == 1))),
        ..=LAST_INTEGERS => Some(Role::Data(Shape::Integers(width(k), k % 2 == 1))),
        ..=LAST_DATA => Some(Role::Data(Shape::Reals(k <= LAST_SINGLE, k % 2 == 1))),
        SKIP => Some(Role::Move(Motion::Skip)),
        BACK => Some(Role::Move(Motion::Back)),
        GOTO => Some(Role::Move(Motion::Goto)),
        _ => None,
    }
}

// The count that a number stands for.
pub fn count_from(n: u32) -> Count
    ensures { result ≡ count_from n }
{
    match n {
        0 => Count::Absent,
        1 => Count::Star,
        _ => Count::Times((n - 2) as usize),
    }
}

// The field that a code stands for.
pub fn field_of(code: u32) -> Field
    ensures { FieldOf code result }
{
    Field {
        role: type_numbered(code % FLAG_UNIT).unwrap_or(Role::Move(Motion::Back)),
        unsigned: code / FLAG_UNIT % 2 == 1,
        count: count_from(code / COUNT_UNIT),
    }
}

// How many slots a field of type d takes.
pub fn slots_in(d: u32) -> usize
    ensures { result ≡ slots_numbered d }
{
    usize::from(d <= LAST_DATA)
}
