// A layout looked at before it is used: how many slots it takes, and how long its shortest record is. The definition is
// in specs/Description.antt; what it has to do with packing is claimed in specs/Claim.antt and proved in
// proofs/Describes.antt.
#![tactic(auto)]

ghost use Rattle.std.specs.Prelude.{◌≡◌, ◌<◌, length};
ghost use Rattle.layout.specs.inside.Parsing.{decoded, FitRole, FitCount};
ghost use Rattle.pack_check.specs.inside.measuring.{advance};
ghost use Rattle.describe.specs.Description.{described};
ghost use Rattle.describe.specs.inside.Measure.{Holds, Least};

use layout::{Count, Refusal, Role, parser};
use pack_check::measuring;
use record::{Answer, Cursor};
use slot_table::sizes;

// A row of numbers for each field of a layout: `fields::fields`.
pub mod fields;

// The cursor past one field, whose starred value is empty.
fn step(role: Role, n: Count, c: Cursor) -> Cursor
    requires { FitRole role × FitCount n × (c.at < 1152921504606846976) }
    ensures { result ≡ advance c role n 0 }
{
    match role {
        Role::Data(s) => c.store(sizes::bytes_for(s, record::amount(n, 0))),
        Role::Move(m) => measuring::moved(m, n, c),
    }
}

// The length of the shortest record of the fields in the codes.
fn least_length(codes: &[u32]) -> usize
    requires { Holds (length codes.now) codes.now }
    ensures { Least (decoded (length codes.now) codes.now) result }
{
    let mut c = Cursor::new(0);
    for code in codes {
        let f = layout::field_of(*code);
        c = step(f.role, f.count, c);
    }
    c.end
}

// Describes a layout: 0, the slots that it takes, and the length of the record that is packed where every starred value
// is empty; or the refusal that packing by it would give, 1 to 4, and its place.
pub fn describe(layout: &[u8]) -> Answer
    ensures { result ≡ described layout.now }
{
    if layout::MAX_LAYOUT < layout.len() {
        return Answer::refused(Refusal::BadSize, 0);
    }
    let mut codes: [u32; layout::MAX_LAYOUT] = [0; layout::MAX_LAYOUT];
    match parser::parse(layout, true, &mut codes) {
        Err(e) => Answer::refused(e.why, e.place as u32),
        Ok(f) => {
            let length = least_length(&codes[..f.count]);
            Answer::accepted(f.slots as u32, length as u32)
        }
    }
}
