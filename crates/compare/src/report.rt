// The report of a comparison: a finding for each value field, by what the two readings left in their tables and areas.
ghost use Rattle.std.specs.Prelude.{◌≡◌, ◌+◌, ◌*◌, ◌≤◌, length, drop};
ghost use Rattle.record.specs.Bytes.{store_at};
ghost use Rattle.compare.specs.Difference.{report_width, finding_numbers};
ghost use Rattle.compare.specs.Report.{findings, finding_of};
ghost use Rattle.compare.specs.inside.Shown.{shown_bytes, Shows, IsValue};

use super::difference;
use super::difference::Finding;

// The numbers of a finding of the report.
pub const REPORT_WIDTH: usize = 3;

// A table and its area as a reading left them, which set its first `set` slots: the values of these lie in the area.
#[derive(Clone, Copy)]
pub struct Side<'a> {
    pub slots: &'a [u32],
    pub area: &'a [u8],
    pub set: usize,
    ghost shows: { Shows slots.now area.now set },
}

impl Side<'_> {
    // The bytes of the value of field i, where the reading set it.
    fn value(&self, i: usize) -> Option<&[u8]>
        ensures { IsValue (drop i (shown_bytes self.now.slots.now self.now.area.now self.now.set)) result }
    {
        if self.set <= i {
            return None;
        }
        let s = slot_table::slot_at(self.slots, i);
        let start = s.start as usize;
        Some(&self.area[start..start + s.len as usize * slot_table::item_size(s.kind)])
    }
}

// The finding of a field by what each side shows of it.
fn field_finding(first: &Side, second: &Side, i: usize) -> Finding
    ensures { finding_numbers result
        ≡ finding_of (drop i (shown_bytes first.now.slots.now first.now.area.now first.now.set))
        (drop i (shown_bytes second.now.slots.now second.now.area.now second.now.set)) }
{
    match (first.value(i), second.value(i)) {
        (Some(a), Some(b)) => difference::both_finding(a, b),
        (Some(_), None) => Finding::OnlyFirst,
        (None, Some(_)) => Finding::OnlySecond,
        (None, None) => Finding::Neither,
    }
}

// Writes the findings of `fields` value fields, from the front of the report on.
pub fn write(report: &mut [u32], fields: usize, first: &Side, second: &Side)
    requires { report_width * fields ≤ length report.old }
    ensures { report.new
        ≡ store_at report.old 0
        (findings fields (shown_bytes first.now.slots.now first.now.area.now first.now.set)
        (shown_bytes second.now.slots.now second.now.area.now second.now.set)) }
{
    for i in 0..fields {
        let at = REPORT_WIDTH * i;
        let numbers = field_finding(first, second, i).numbers();
        report[at..at + REPORT_WIDTH].copy_from_slice(&numbers);
    }
}
