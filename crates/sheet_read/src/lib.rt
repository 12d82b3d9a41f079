// A sheet read into a table of slots. The first pass over the entries checks and measures, the second writes. So a
// refusal writes nothing.
#![tactic(auto)]

ghost use Rattle.std.specs.Prelude.{◌≡◌};
ghost use Rattle.sheet.specs.Sheet.{read_sheet};
ghost use Rattle.sheet_read.specs.inside.Steps.{OpenedAs};

use layout::Refusal;
use record::Answer;
use sheet::lengths::Version;

// Whether a sheet is whole and what it needs, with nothing written.
pub mod check;
// The entries put into a table.
pub mod fill;

// What is left of a reading once version and header are sound.
fn read_entries(sheet: &[u8], v: Version, slots: &mut [u32], area: &mut [u8], mark: usize) -> Answer
    requires { OpenedAs v sheet.now slots.old area.old mark }
    ensures { record { answer = result; slots = slots.new; area = area.new }
        ≡ read_sheet sheet.now slots.old area.old mark }
{
    let x = check::measure(sheet, v, sheet.len());
    if x.end != sheet.len() {
        return Answer::refused(Refusal::BadSheet, x.end as u32);
    }
    if !x.needs(v) {
        return Answer::refused(Refusal::BadSheet, 0);
    }
    if slots.len() / record::SLOT_WIDTH < x.entries {
        return Answer::refused(Refusal::BadSlots, 0);
    }
    if area.len() - mark < x.values {
        return Answer::refused(Refusal::NoRoom, 0);
    }
    fill::fill(sheet, v, x.entries, slots, area, mark)
}

// Reads a sheet: sets slots from the first on, and puts their values into the area from the mark on. A refusal changes
// nothing.
pub fn read(sheet: &[u8], slots: &mut [u32], area: &mut [u8], mark: usize) -> Answer
    ensures { record { answer = result; slots = slots.new; area = area.new }
        ≡ read_sheet sheet.now slots.old area.old mark }
{
    if !sheet::lent_fits(slots.len(), area.len(), sheet.len(), mark) {
        return Answer::refused(Refusal::BadSize, 0);
    }
    let Some(v) = Version::of(sheet) else {
        return Answer::refused(Refusal::BadVersion, 0);
    };
    if !check::header_fits(sheet, v) {
        return Answer::refused(Refusal::BadSheet, 0);
    }
    read_entries(sheet, v, slots, area, mark)
}
