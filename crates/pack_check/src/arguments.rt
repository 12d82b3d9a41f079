// The exact check of one argument, a slot with the area beside it as the definitions have them: whether it is refused
// with one of the numbers 6 to 10, or 16 (the table of numbers is in include/curlew.h).
ghost use Rattle.std.specs.Prelude.{◌≡◌, Bool, true, eqb, take};
ghost use Rattle.layout.specs.declared.Shape.TheVariants.{Reals};
ghost use Rattle.record.specs.Table.{string, real, shown};
ghost use Rattle.record.specs.Packing.{kind_fits, enough, amount_fits, all_digits, digits_fit, reals_fit};
ghost use Rattle.record.specs.Packing.{argument_fits};
ghost use Rattle.record.specs.inside.Slots.{inside_area};
ghost use Rattle.pack_check.specs.inside.arguments.{answer_of};

use layout::{Count, Refusal, Refused, Shape};
use record::slots::Slot;

// The kind is one that the type takes; else number 8.
fn kind_fits(s: Shape, kind: u32) -> bool
    ensures { result ≡ kind_fits s kind }
{
    match s {
        Shape::Text(_) | Shape::Digits(_, _) => kind == record::slots::STRING,
        Shape::Integers(_, _) => slot_table::is_integers(kind),
        Shape::Reals(_, _) => kind == record::slots::REAL,
    }
}

fn is_enough(n: Count, have: u32) -> bool
    ensures { result ≡ enough n have }
{
    match n {
        Count::Absent => have == 1,
        Count::Star => true,
        Count::Times(m) => m <= have as usize,
    }
}

// There are as many integers or reals as the count asks for; else number 9.
fn amount_fits(s: Shape, n: Count, have: u32) -> bool
    ensures { result ≡ amount_fits s n have }
{
    match s {
        Shape::Text(_) | Shape::Digits(_, _) => true,
        Shape::Integers(_, _) | Shape::Reals(_, _) => is_enough(n, have),
    }
}

// The bytes of a string.
#[tactic(auto, unfolding(record::specs::Table::shown))]
pub fn bytes_of(a: Slot, area: &[u8]) -> &[u8]
    requires { (eqb a.kind string ≡ true) × (inside_area area.now a ≡ true) }
    ensures { result.now ≡ (shown area.now a).items }
{
    let start = a.start as usize;
    &area[start..start + a.len as usize]
}

// Each of the first n bytes of a string is a digit. No other is looked at.
pub fn are_digits(hex: bool, n: usize, a: Slot, area: &[u8]) -> bool
    requires { (eqb a.kind string ≡ true) × (inside_area area.now a ≡ true) }
    ensures { result ≡ all_digits hex (take n (shown area.now a).items) }
{
    let bytes = bytes_of(a, area);
    digits::all_digits(&bytes[..n.min(bytes.len())], hex)
}

// Each digit that is looked at is one; else number 10.
#[tactic(auto, unfolding(record::specs::Packing::digits_fit))]
fn digits_fit(s: Shape, n: usize, a: Slot, area: &[u8]) -> bool
    requires { (kind_fits s a.kind ≡ true) × (inside_area area.now a ≡ true) }
    ensures { result ≡ digits_fit s n (shown area.now a).items }
{
    match s {
        Shape::Digits(hex, _) => are_digits(hex, n, a, area),
        _ => true,
    }
}

// None of the first n reals that become singles is a NaN.
#[tactic(auto, unfolding(record::specs::Packing::reals_fit))]
pub fn singles_fit(single: bool, n: usize, a: Slot, area: &[u8]) -> bool
    requires { (eqb a.kind real ≡ true) × (inside_area area.now a ≡ true) }
    ensures { (big : Bool) → result ≡ reals_fit (Reals single big) n (shown area.now a).items }
{
    !single || reals::no_nan(area, a.start as usize, n.min(a.len as usize))
}

// None of the first n reals of an argument is a NaN, where the field makes them singles; else number 16.
#[tactic(auto, unfolding(record::specs::Packing::reals_fit))]
fn reals_fit(s: Shape, n: usize, a: Slot, area: &[u8]) -> bool
    requires { (kind_fits s a.kind ≡ true) × (inside_area area.now a ≡ true) }
    ensures { result ≡ reals_fit s n (shown area.now a).items }
{
    match s {
        Shape::Reals(single, _) => singles_fit(single, n, a, area),
        _ => true,
    }
}

// Whether the argument in slot number k serves a field, or the first of the refusals 6 to 10 and 16.
#[tactic(auto, unfolding(record::specs::Packing::argument_fits))]
pub fn check(s: Shape, n: Count, a: Slot, k: usize, area: &[u8]) -> Result<(), Refused>
    ensures { result ≡ answer_of (argument_fits area.now s n k a) }
{
    if a.kind == record::slots::UNSET {
        return Err(Refusal::NotSet.at(k));
    }
    if !slot_table::is_inside(a, area.len()) {
        return Err(Refusal::BadSlot.at(k));
    }
    if !kind_fits(s, a.kind) {
        return Err(Refusal::WrongKind.at(k));
    }
    if !amount_fits(s, n, a.len) {
        return Err(Refusal::BadList.at(k));
    }
    let items = record::amount(n, a.len as usize);
    if !digits_fit(s, items, a, area) {
        return Err(Refusal::BadDigit.at(k));
    }
    if !reals_fit(s, items, a, area) {
        return Err(Refusal::BadReal.at(k));
    }
    Ok(())
}
