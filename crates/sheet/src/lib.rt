// Sheets: a table of slots as a run of bytes. Here are the sizes and the lengths;
// sheet_write and sheet_read have the calls.
#![tactic(auto)]

ghost use Rattle.std.specs.Prelude.{◌≡◌};
ghost use Rattle.sheet.specs.Sheet.{sheet_sizes_fit};
ghost use Rattle.sheet.specs.inside.Steps.{sheet_lent_fits};

use slot_table::sizes;

pub mod lengths;

// The longest sheet, and the longest buffer for one.
const MAX_SHEET: usize = 1048576;

// Slots, area and sheet keep to their sizes, by their lengths.
pub fn lengths_fit(slots: usize, area: usize, sheet: usize) -> bool
    ensures { result ≡ sheet_sizes_fit slots area sheet }
{
    sizes::table_fits(slots, area) && sheet <= MAX_SHEET
}

// Slots, area and sheet keep to their sizes, and the mark lies in the area.
pub fn lent_fits(slots: usize, area: usize, sheet: usize, mark: usize) -> bool
    ensures { result ≡ sheet_lent_fits slots area sheet mark }
{
    lengths_fit(slots, area, sheet) && mark <= area
}
