// Rescuing a damaged sheet: what is whole at its front goes into the table, and the slots after it are cleared. Here are
// the tests before that; `fill` does it.
#![tactic(auto)]

ghost use Rattle.std.specs.Prelude.{◌≡◌};
ghost use Rattle.rescue.specs.Rescue.{rescue};
ghost use Rattle.rescue.specs.inside.Steps.{rescue_sizes_fit};

use fill::Rescued;
use layout::Refusal;
use sheet::lengths::Version;

// The entries put in, one after the other.
pub mod fill;

// Number 1 is not given, by the lengths.
fn sizes_fit(slots: usize, area: usize, sheet: usize, mark: usize, legs: usize) -> bool
    ensures { result ≡ rescue_sizes_fit slots area sheet mark legs }
{
    sheet::lent_fits(slots, area, sheet, mark) && legs <= record::MAX_SLOTS
}

// Keeps the whole entries at the front of a sheet, at most as many as there are legs: sets their slots, puts their
// values into the area from the mark on, and clears the other slots up to the number of legs. A refusal changes
// nothing.
pub fn rescue(sheet: &[u8], legs: usize, slots: &mut [u32], area: &mut [u8], mark: usize) -> Rescued
    ensures { record { answer = result; slots = slots.new; area = area.new }
        ≡ rescue sheet.now legs slots.old area.old mark }
{
    if !sizes_fit(slots.len(), area.len(), sheet.len(), mark, legs) {
        return Rescued::refused(Refusal::BadSize);
    }
    let Some(v) = Version::of(sheet) else {
        return Rescued::refused(Refusal::BadVersion);
    };
    if slots.len() / record::SLOT_WIDTH < legs {
        return Rescued::refused(Refusal::BadSlots);
    }
    fill::rescue_entries(sheet, v, legs, slots, area, mark)
}
