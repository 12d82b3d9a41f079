// A table written as a sheet and read back: both calls one after the other, and what they keep.
ghost use Rattle.std.specs.Prelude.{◌≡◌};
ghost use Rattle.sheet.specs.Claims.{Stored, KeepsValues, read_part, kept};
ghost use Rattle.sheet_claims.specs.inside.keep.{left};

use record::Answer;

// Writes a table as a sheet, and reads the sheet into another table. Answers what the reading does, or the writing
// where that refuses.
pub fn keep(
    slots: &[u32],
    area: &[u8],
    sheet: &mut [u8],
    table: &mut [u32],
    values: &mut [u8],
    mark: usize,
) -> Answer
    ensures effect { left sheet.old sheet.new table.old table.new values.old values.new result
        ≡ kept slots.now area.now sheet.old table.old values.old mark }
    ensures values_kept { Stored slots.now area.now sheet.old table.old values.old mark
        → KeepsValues slots.now area.now table.old values.old mark (read_part (left sheet.old sheet.new table.old table.new values.old values.new result)) }
{
    let a = sheet_write::write(slots, area, sheet);
    if a.number != 0 {
        return a;
    }
    sheet_read::read(&sheet[..a.first as usize], table, values, mark)
}
