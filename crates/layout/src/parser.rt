// The layout reader: the text of a layout, read once into one code for each field.
ghost use Rattle.std.specs.Prelude.{◌≡◌, ◌≤◌, ◌<◌, length, get_or};
ghost use Rattle.layout.specs.Layout.{max_layout, has_meaning, fields_of};
ghost use Rattle.layout.specs.Codes.{count_from, known, type_numbered};
ghost use Rattle.layout.specs.inside.Parsing.{FoundAs, Parses};

use super::{Fields, Item, Refusal, Refused, scanner};

// The count means something after the type, so that number 4 does not apply; both are given by their numbers.
pub fn has_meaning(packing: bool, d: u32, n: u32) -> bool
    ensures { result ≡ has_meaning packing (known (type_numbered d)) (count_from n) }
{
    d <= super::LAST_DATA
        || match d {
            super::SKIP => n != 1 || !packing,
            super::GOTO => n != 0,
            _ => true,
        }
}

// The field whose type character stands at p.
fn read_field(text: &[u8], packing: bool, p: usize) -> Result<Item, Refused>
    requires { (p < length text.now) × (get_or text.now p 0 ≡ 32 → ⊥) }
    ensures { FoundAs packing text.now p result }
{
    let d = scanner::type_number(text[p]);
    if super::LAST_TYPE < d {
        return Err(Refusal::BadType.at(p));
    }
    let t = scanner::tail_at(text, p + 1);
    if scanner::LAST_COUNT < t.value {
        return Err(Refusal::BadCount.at(p + 1 + usize::from(t.flag)));
    }
    if !has_meaning(packing, d, t.value) {
        return Err(Refusal::BadMove.at(p));
    }
    Ok(Item {
        code: d + super::FLAG_UNIT * u32::from(t.flag) + super::COUNT_UNIT * t.value,
        more: t.next - (p + 1),
        slots: super::slots_in(d),
    })
}

// Reads a layout that is no longer than the codes: the first of them become its fields.
pub fn parse(text: &[u8], packing: bool, codes: &mut [u32]) -> Result<Fields, Refused>
    requires { (length text.now ≤ length codes.old) × (length codes.old ≤ max_layout) }
    ensures { Parses (fields_of packing text.now) result codes.new }
{
    let mut at: usize = 0;
    let mut count: usize = 0;
    let mut slots: usize = 0;
    // Place by place: a field takes any number of bytes, and what is read is refused at its place.
    loop {
        let p = scanner::spaces_end(text, at);
        if text.len() <= p {
            return Ok(Fields { count, slots });
        }
        let item = read_field(text, packing, p)?;
        codes[count] = item.code;
        count += 1;
        slots += item.slots;
        at = p + 1 + item.more;
    }
}
