// A table of slots stored as a sheet. The first pass over the slots checks and measures, the second writes (module
// `store`). So a refusal writes nothing.
#![tactic(auto)]

ghost use Rattle.std.specs.Prelude.{◌≡◌, ◌≤◌, ◌<◌};
ghost use Rattle.record.specs.Table.{max_slots, number_limit};
ghost use Rattle.sheet.specs.Sheet.{write_sheet};
ghost use Rattle.sheet.specs.inside.Steps.{byte_of};
ghost use Rattle.sheet_write.specs.inside.Steps.{version_by, length_in, Checked};

use layout::Refusal;
use record::Answer;
use sheet::lengths::{LIMIT_1, Version};

// The two passes.
mod store;

// The version for a sheet that takes n bytes in version 1.
fn version_for(n: usize) -> Version
    ensures { byte_of result ≡ version_by n }
{
    if n < LIMIT_1 + Version::One.header() {
        Version::One
    } else {
        Version::Two
    }
}

// The bytes in the version v of a sheet that takes n bytes in version 1: in version 2 each length has two more.
fn length_in(v: Version, n: usize, entries: usize) -> usize
    requires { (n < number_limit) × (entries ≤ max_slots) }
    ensures { result ≡ length_in (byte_of v) n entries }
{
    match v {
        Version::One => n,
        Version::Two => n + 2 * (entries + 1),
    }
}

// What is left of a writing once the slots are sound.
fn write_sheet(slots: &[u32], area: &[u8], sheet: &mut [u8], n: usize) -> Answer
    requires { Checked slots.now area.now sheet.old n }
    ensures { record { answer = result; output = sheet.new }
        ≡ write_sheet slots.now area.now sheet.old }
{
    let v = version_for(n);
    let size = length_in(v, n, slots.len() / record::SLOT_WIDTH);
    if sheet.len() < size {
        return Answer::refused(Refusal::NoRoom, 0);
    }
    store::fill(slots, area, sheet, v, size);
    Answer::accepted(size as u32, 0)
}

// Stores a table as a sheet at the front of the buffer. A refusal changes nothing.
pub fn write(slots: &[u32], area: &[u8], sheet: &mut [u8]) -> Answer
    ensures { record { answer = result; output = sheet.new }
        ≡ write_sheet slots.now area.now sheet.old }
{
    if !sheet::lengths_fit(slots.len(), area.len(), sheet.len()) {
        return Answer::refused(Refusal::BadSize, 0);
    }
    match store::measure(slots, area) {
        Ok(n) => write_sheet(slots, area, sheet, n),
        Err(refused) => refused,
    }
}
