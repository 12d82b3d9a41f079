// A table as a sheet: the slots checked and measured, then header and entries stored. The call is in src/lib.rt.
ghost use Rattle.std.specs.Prelude.{◌≡◌, true, ◌+◌, ◌*◌, ◌≤◌, length};
ghost use Rattle.record.specs.Bytes.{store_at};
ghost use Rattle.record.specs.Table.{slot_width, max_slots, max_area};
ghost use Rattle.sheet.specs.Sheet.{version1, width_of, header_size, value_size, entry_of, slot_writable};
ghost use Rattle.sheet.specs.inside.Steps.{byte_of, width, sheet_for, body_for};
ghost use Rattle.sheet_write.specs.inside.store.{MeasuredAs, entry_for, EntryRoom, BodyRoom};

use byte_runs::big_endian;
use layout::Refusal;
use record::Answer;
use record::slots::{Slot, UNSET};
use sheet::lengths::Version;

// A slot over an area of `area` bytes fits; else number 7. One that is not set is never bad.
fn slot_fits(a: Slot, area: usize) -> bool
    ensures { result ≡ slot_writable area a }
{
    a.kind == UNSET || slot_table::is_inside(a, area)
}

// The bytes of a slot's value.
fn value_size(a: Slot) -> usize
    ensures { result ≡ value_size a }
{
    if a.kind == UNSET {
        0
    } else {
        a.len as usize * slot_table::item_size(a.kind)
    }
}

// The first pass over the slots: the length of the sheet in version 1, or the refusal of the first bad slot. Nothing is
// written.
pub fn measure(slots: &[u32], area: &[u8]) -> Result<usize, Answer>
    requires { (length slots.now ≤ slot_width * max_slots) × (length area.now ≤ max_area) }
    ensures { MeasuredAs (width_of version1) slots.now area.now result }
{
    let header = Version::One.header();
    let mut size = header;
    // Slot by slot, by its number, as `slot_at` takes it.
    for k in 0..slots.len() / record::SLOT_WIDTH {
        let a = slot_table::slot_at(slots, k);
        if !slot_fits(a, area.len()) {
            return Err(Answer::refused(Refusal::BadSlot, k as u32));
        }
        size += header + value_size(a);
    }
    Ok(size)
}

// Copies the value of a slot that was checked.
fn put_value(out: &mut [u8], at: usize, a: Slot, area: &[u8], size: usize)
    requires { (slot_writable (length area.now) a ≡ true) × (size ≡ value_size a) × (at + size ≤ length out.old) }
    ensures { out.new ≡ store_at out.old at (entry_of area.now a).value }
{
    if a.kind != UNSET {
        byte_runs::copy(out, at, area, a.start as usize, size);
    }
}

// Stores the entry of a slot that was checked: length, kind and value; hands back the place after it.
fn put_entry(out: &mut [u8], at: usize, a: Slot, area: &[u8], v: Version) -> usize
    requires { EntryRoom (width v) area.now a at (length out.old) }
    ensures { (out.new ≡ store_at out.old at (entry_for (width v) area.now a))
        × (result ≡ at + length (entry_for (width v) area.now a)) }
{
    let size = value_size(a);
    big_endian::put_number(out, at, v.width(), (size + 1) as u64);
    out[at + v.width()] = a.kind as u8;
    put_value(out, at + v.header(), a, area, size);
    at + v.header() + size
}

// Stores all entries after the header.
fn put_body(slots: &[u32], area: &[u8], out: &mut [u8], v: Version)
    requires { BodyRoom (width v) slots.now area.now (length out.old) }
    ensures { out.new ≡ store_at out.old (header_size (width v)) (body_for (width v) slots.now area.now) }
{
    let mut at = v.header();
    for k in 0..slots.len() / record::SLOT_WIDTH {
        at = put_entry(out, at, slot_table::slot_at(slots, k), area, v);
    }
}

// The second pass: a sheet of n bytes.
pub fn fill(slots: &[u32], area: &[u8], out: &mut [u8], v: Version, n: usize)
    requires { BodyRoom (width v) slots.now area.now (length out.old)
        × (n ≡ header_size (width v) + length (body_for (width v) slots.now area.now)) }
    ensures { out.new ≡ store_at out.old 0 (sheet_for (byte_of v) (width v) slots.now area.now) }
{
    out[0] = v.byte();
    big_endian::put_number(out, 1, v.width(), (n - v.header()) as u64);
    put_body(slots, area, out, v)
}
