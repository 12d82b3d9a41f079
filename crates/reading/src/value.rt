// The value of a field that was found: how many bytes of the area it takes, and its way there.
ghost use Rattle.std.specs.Prelude.{◌≡◌, ◌+◌, ◌*◌, ◌%◌, ◌≤◌, length};
ghost use Rattle.layout.specs.declared.Shape.TheVariants.{Text, Digits, Integers, Reals};
ghost use Rattle.layout.specs.inside.Parsing.{shape_numbered};
ghost use Rattle.record.specs.Table.{max_area, area_bytes, integer_kind};
ghost use Rattle.reading.specs.inside.value.{InRecord, value_of, TextOf, SizeOf, LoadedAs};

use super::positions::Found;
use record::slots;

// What a slot says of a value, and the bytes that the value takes in the area.
#[derive(Clone, Copy)]
pub struct Loaded {
    pub kind: u32,
    pub items: usize,
    pub size: usize,
}

impl Loaded {
    // A string: a byte for each character.
    fn string(items: usize) -> Loaded
        ensures { result ≡ record { kind = 1; items = items; size = items } }
    {
        Loaded {
            kind: slots::STRING,
            items,
            size: items,
        }
    }

    // Numbers: eight bytes for each.
    fn numbers(kind: u32, items: usize) -> Loaded
        requires { items ≤ max_area }
        ensures { result ≡ record { kind = kind; items = items; size = items * 8 } }
    {
        Loaded {
            kind,
            items,
            size: items * record::INTEGER_SIZE,
        }
    }
}

// The bytes of the area that the value of a field takes.
pub fn size_of(bytes: &[u8], found: Found) -> usize
    requires { InRecord bytes.now found }
    ensures { SizeOf bytes.now found.at (shape_numbered found.number) found.items result }
{
    match found.number {
        layout::INT_8.. => found.items * record::INTEGER_SIZE,
        layout::TEXT_SPACE => text::trimmed_len(bytes, found.at, found.items),
        _ => found.items,
    }
}

// How long the value of a text of n bytes is.
fn text_len(bytes: &[u8], at: usize, n: usize, pad: u8) -> usize
    requires { at + n ≤ length bytes.now }
    ensures { TextOf bytes.now at n pad result }
{
    if pad == 32 {
        text::trimmed_len(bytes, at, n)
    } else {
        n
    }
}

// Puts the value of a text into the area. (Here and below the area stays whole beside the place `to`: `LoadedAs` speaks
// of all of it, and a part would have to be put back.)
fn text(area: &mut [u8], to: usize, bytes: &[u8], found: Found, pad: u8) -> Loaded
    requires inside { InRecord bytes.now found }
    requires room { to + length (area_bytes (value_of bytes.now found)) ≤ length area.old }
    requires form { shape_numbered found.number ≡ Text pad }
    ensures { LoadedAs (value_of bytes.now found) area.old to result area.new }
{
    let len = text_len(bytes, found.at, found.items, pad);
    byte_runs::copy(area, to, bytes, found.at, len);
    Loaded::string(len)
}

// Puts digits into the area.
fn digits(area: &mut [u8], to: usize, bytes: &[u8], found: Found, hex: bool, high: bool) -> Loaded
    requires inside { InRecord bytes.now found }
    requires room { to + length (area_bytes (value_of bytes.now found)) ≤ length area.old }
    requires form { shape_numbered found.number ≡ Digits hex high }
    ensures { LoadedAs (value_of bytes.now found) area.old to result area.new }
{
    let Found { at, items, .. } = found;
    if hex {
        let given = &bytes[at..at + items.div_ceil(2)];
        digits::load::load_hex(&mut area[to..to + items], given, high);
        return Loaded::string(items);
    }
    let given = &bytes[at..at + items.div_ceil(8)];
    digits::load::load_binary(&mut area[to..to + items], given, high);
    Loaded::string(items)
}

fn integer_kind(unsigned: bool) -> u32
    ensures { result ≡ integer_kind unsigned }
{
    if unsigned {
        slots::UNSIGNED
    } else {
        slots::SIGNED
    }
}

// Puts integers of w bytes into the area.
fn integers(area: &mut [u8], to: usize, bytes: &[u8], found: Found, w: usize, big: bool) -> Loaded
    requires inside { InRecord bytes.now found }
    requires room { to + length (area_bytes (value_of bytes.now found)) ≤ length area.old }
    requires form { shape_numbered found.number ≡ Integers w big }
    requires whole { 8 % w ≡ 0 }
    ensures { LoadedAs (value_of bytes.now found) area.old to result area.new }
{
    let Found {
        at,
        items,
        unsigned,
        ..
    } = found;
    integers::load::load(area, to, bytes, at, items, w, big, unsigned);
    Loaded::numbers(integer_kind(unsigned), items)
}

// Puts reals into the area.
fn reals(area: &mut [u8], to: usize, bytes: &[u8], found: Found, single: bool, big: bool) -> Loaded
    requires inside { InRecord bytes.now found }
    requires room { to + length (area_bytes (value_of bytes.now found)) ≤ length area.old }
    requires form { shape_numbered found.number ≡ Reals single big }
    ensures { LoadedAs (value_of bytes.now found) area.old to result area.new }
{
    reals::load::load(area, to, bytes, found.at, found.items, single, big);
    Loaded::numbers(slots::REAL, found.items)
}

// Puts the value of a field into the area. The calls have constants for what the inner loops turn on, so that each
// becomes a loop of its own.
#[tactic(auto, unfolding(layout::specs::inside::Parsing::shape_numbered, layout::specs::Codes::type_numbered))]
pub fn load(area: &mut [u8], to: usize, bytes: &[u8], found: Found) -> Loaded
    requires inside { InRecord bytes.now found }
    requires room { to + length (area_bytes (value_of bytes.now found)) ≤ length area.old }
    ensures { LoadedAs (value_of bytes.now found) area.old to result area.new }
{
    match found.number {
        layout::TEXT_ZERO => text(area, to, bytes, found, 0),
        layout::TEXT_SPACE => text(area, to, bytes, found, 32),
        layout::BINARY_LOW => digits(area, to, bytes, found, false, false),
        layout::BINARY_HIGH => digits(area, to, bytes, found, false, true),
        layout::HEX_LOW => digits(area, to, bytes, found, true, false),
        layout::HEX_HIGH => digits(area, to, bytes, found, true, true),
        layout::INT_8 => integers(area, to, bytes, found, 1, false),
        layout::INT_8_BIG => integers(area, to, bytes, found, 1, true),
        layout::INT_16 => integers(area, to, bytes, found, 2, false),
        layout::INT_16_BIG => integers(area, to, bytes, found, 2, true),
        layout::INT_32 => integers(area, to, bytes, found, 4, false),
        layout::INT_32_BIG => integers(area, to, bytes, found, 4, true),
        layout::INT_64 => integers(area, to, bytes, found, 8, false),
        layout::INT_64_BIG => integers(area, to, bytes, found, 8, true),
        layout::SINGLE => reals(area, to, bytes, found, true, false),
        layout::SINGLE_BIG => reals(area, to, bytes, found, true, true),
        layout::DOUBLE => reals(area, to, bytes, found, false, false),
        _ => reals(area, to, bytes, found, false, true),
    }
}
