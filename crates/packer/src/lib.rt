// The packer: a layout and a table of arguments become a record (Tcl's `binary format`). Everything is decided before
// anything is written: sizes, layout, slot count, arguments and length; then the fields are stored.
#![tactic(auto)]

ghost use Rattle.std.specs.Prelude.{◌≡◌, ◌≤◌, length, min};
ghost use Rattle.layout.specs.Layout.{max_layout};
ghost use Rattle.record.specs.Packing.{pack};
ghost use Rattle.packer.specs.inside.Whole.{PackReady, PacksAsRead};

use layout::{Fields, MAX_LAYOUT, Refusal, Refused, SHORT_LAYOUT, parser};
use record::Answer;
use slot_table::sizes;

// Both passes, over a layout that is read.
pub mod passes;

// What is left of a packing once the fields of a layout or a plan are read.
pub fn packed(
    p: Result<Fields, Refused>,
    codes: &[u32],
    slots: &[u32],
    area: &[u8],
    output: &mut [u8],
) -> Answer
    requires { PackReady p codes.now slots.now area.now output.old }
    ensures { PacksAsRead p codes.now slots.now area.now output.old result output.new }
{
    match p {
        Err(e) => Answer::refused(e.why, e.place as u32),
        Ok(f) => {
            if slots.len() / record::SLOT_WIDTH != f.slots {
                return Answer::refused(Refusal::BadSlots, 0);
            }
            passes::pack(&codes[..f.count], slots, area, output)
        }
    }
}

// Packs by a layout, with N codes for its fields: `pack` has as many as the longest layout needs.
pub fn pack_in<const N: usize>(
    layout: &[u8],
    slots: &[u32],
    area: &[u8],
    output: &mut [u8],
) -> Answer
    requires { (min (length layout.now) max_layout ≤ N) × (N ≤ max_layout) }
    ensures { record { answer = result; output = output.new }
        ≡ pack layout.now slots.now area.now output.old }
{
    if !sizes::lengths_fit(layout.len(), slots.len(), output.len(), area.len()) {
        return Answer::refused(Refusal::BadSize, 0);
    }
    let mut codes: [u32; N] = [0; N];
    let p = parser::parse(layout, true, &mut codes);
    packed(p, &codes, slots, area, output)
}

// Packs the arguments into the output by the layout. A refusal changes nothing.
pub fn pack(layout: &[u8], slots: &[u32], area: &[u8], output: &mut [u8]) -> Answer
    ensures { record { answer = result; output = output.new }
        ≡ pack layout.now slots.now area.now output.old }
{
    pack_in::<MAX_LAYOUT>(layout, slots, area, output)
}

// As `pack`, quicker by a short layout.
pub fn pack_short(layout: &[u8], slots: &[u32], area: &[u8], output: &mut [u8]) -> Answer
    ensures { record { answer = result; output = output.new }
        ≡ pack layout.now slots.now area.now output.old }
{
    if SHORT_LAYOUT < layout.len() {
        return pack(layout, slots, area, output);
    }
    pack_in::<SHORT_LAYOUT>(layout, slots, area, output)
}
