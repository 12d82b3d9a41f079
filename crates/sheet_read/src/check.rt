// Whether a sheet is whole, and what it needs: the test of the header, and the pass over the entries that measures
// them. Nothing is written.
ghost use Rattle.std.specs.Prelude.{◌≡◌, true, false, ◌+◌, ◌≤◌, length, MatchOption};
ghost use Rattle.record.specs.Bytes.{number_at};
ghost use Rattle.sheet.specs.Entries.{whole_items, begins_entry};
ghost use Rattle.sheet.specs.Sheet.{header_size, max_sheet, header_fits};
ghost use Rattle.sheet.specs.inside.Steps.{byte_of, width};
ghost use Rattle.sheet_read.specs.inside.check.{needed_by, front_of, ExtentOf};

use sheet::lengths::{LIMIT_1, Version};

// The header is whole and has the length of what follows.
#[tactic(auto, unfolding(sheet::specs::Sheet::header_fits, record::specs::Bytes::number_at))]
pub fn header_fits(sheet: &[u8], v: Version) -> bool
    ensures { result ≡ header_fits (width v) sheet.now }
{
    v.header() <= sheet.len() && v.length(&sheet[1..]) == sheet.len() - v.header()
}

// n bytes are a value of the kind.
fn whole_items(kind: u8, n: usize) -> bool
    ensures { result ≡ whole_items kind n }
{
    let kind = u32::from(kind);
    if kind == record::slots::UNSET {
        n == 0
    } else {
        n % slot_table::item_size(kind) == 0
    }
}

// The bytes of the value of the entry that bytes begin with; None where no whole entry stands there.
#[tactic(auto, unfolding(sheet::specs::Entries::begins_entry))]
fn value_size(rest: &[u8], v: Version) -> Option<usize>
    ensures { MatchOption result (begins_entry (width v) rest.now ≡ false)
        (λ n. (begins_entry (width v) rest.now ≡ true) × (number_at (width v) rest.now 0 ≡ n + 1)
        × (header_size (width v) + n ≤ length rest.now)) }
{
    let w = v.width();
    if rest.len() < w {
        return None;
    }
    let size = v.length(rest).checked_sub(1)?;
    if rest.len() - w <= size {
        return None;
    }
    let kind = rest[w];
    if record::slots::MAX_KIND < u32::from(kind) || !whole_items(kind, size) {
        return None;
    }
    Some(size)
}

// The whole entries of a sheet: how many, the bytes of their values, and where they end.
#[derive(Clone, Copy)]
pub struct SheetExtent {
    pub entries: usize,
    pub values: usize,
    pub end: usize,
}

impl SheetExtent {
    // The fitting rule, by the number of entries and of the bytes of their values.
    pub fn needs(self, v: Version) -> bool
        requires { self.entries + self.values ≤ max_sheet }
        ensures { result ≡ needed_by (byte_of v) self.entries self.values }
    {
        v == Version::One || LIMIT_1 <= self.entries * Version::One.header() + self.values
    }
}

// The first pass over the entries, at most `most`. Nothing is written.
pub fn measure(sheet: &[u8], v: Version, most: usize) -> SheetExtent
    requires { (header_size (width v) ≤ length sheet.now) × (length sheet.now ≤ max_sheet) }
    ensures { ExtentOf (width v) (front_of (width v) most sheet.now) sheet.now result }
{
    let mut values = 0;
    let mut end = v.header();
    for entries in 0..most {
        let Some(size) = value_size(&sheet[end..], v) else {
            return SheetExtent {
                entries,
                values,
                end,
            };
        };
        values += size;
        end += v.header() + size;
    }
    SheetExtent {
        entries: most,
        values,
        end,
    }
}
