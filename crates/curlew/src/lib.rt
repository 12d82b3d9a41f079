// The calls that a C host links to, each under its C name: the crates host_* hold what they do.
ghost use Rattle.host_record.specs.Packing.{HostPacks};
ghost use Rattle.host_record.specs.Reading.{HostReads};
ghost use Rattle.host_sheet.specs.Writing.{HostWritesSheet};
ghost use Rattle.host_sheet.specs.Reading.{HostReadsSheet};
ghost use Rattle.host_sheet.specs.Rescuing.{HostRescues};
ghost use Rattle.host_compare.specs.Calls.{HostCompares};
ghost use Rattle.host_mean.specs.Calls.{HostMeans};
ghost use Rattle.host_layout.specs.Templates.{HostConverts};
ghost use Rattle.host_layout.specs.Layouts.{HostDescribes};
ghost use Rattle.host_layout.specs.Fields.{HostLists};
ghost use Rattle.host_plans.specs.Calls.{HostPrepares, HostPacksPlan, HostReadsPlan};
ghost use Rattle.host_layout.specs.Theorems.{HostPromises, HostExtends};
ghost use Rattle.curlew.specs.Version.{version};
ghost use Rattle.std.specs.Prelude.{◌≡◌};

// Packs the arguments into `out` by the layout (Tcl's `binary format`).
#[unsafe(no_mangle)]
pub extern "C" fn curlew_pack(
    layout: &[u8],
    slots: &[u8],
    area: &[u8],
    out: &mut [u8],
    reply: &mut [u8],
) -> u32
    ensures { HostPacks layout.now slots.now area.now out.old out.new reply.old reply.new result }
{
    host_record::pack::pack(layout, slots, area, out, reply)
}

// Reads a record by the layout (Tcl's `binary scan`), and sets slots and area.
#[unsafe(no_mangle)]
pub extern "C" fn curlew_read(
    layout: &[u8],
    bytes: &[u8],
    slots: &mut [u8],
    area: &mut [u8],
    mark: usize,
    reply: &mut [u8],
) -> u32
    ensures { HostReads layout.now bytes.now slots.old slots.new area.old area.new mark reply.old reply.new result }
{
    host_record::read::read(layout, bytes, slots, area, mark, reply)
}

// Reads a layout once, into a plan for many records.
#[unsafe(no_mangle)]
pub extern "C" fn curlew_prepare(layout: &[u8], plan: &mut [u32], reply: &mut [u8]) -> u32
    ensures { HostPrepares layout.now plan.old plan.new reply.old reply.new result }
{
    host_plans::prepare(layout, plan, reply)
}

// Packs the arguments into `out` by a plan.
#[unsafe(no_mangle)]
pub extern "C" fn curlew_pack_plan(
    plan: &[u32],
    slots: &[u8],
    area: &[u8],
    out: &mut [u8],
    reply: &mut [u8],
) -> u32
    ensures { HostPacksPlan plan.now slots.now area.now out.old out.new reply.old reply.new result }
{
    host_plans::pack(plan, slots, area, out, reply)
}

// Reads a record by a plan, and sets slots and area.
#[unsafe(no_mangle)]
pub extern "C" fn curlew_read_plan(
    plan: &[u32],
    bytes: &[u8],
    slots: &mut [u8],
    area: &mut [u8],
    mark: usize,
    reply: &mut [u8],
) -> u32
    ensures { HostReadsPlan plan.now bytes.now slots.old slots.new area.old area.new mark reply.old reply.new result }
{
    host_plans::read(plan, bytes, slots, area, mark, reply)
}

// Writes a table of slots as a sheet at the front of the buffer.
#[unsafe(no_mangle)]
pub extern "C" fn curlew_sheet_write(
    slots: &[u8],
    area: &[u8],
    sheet: &mut [u8],
    reply: &mut [u8],
) -> u32
    ensures { HostWritesSheet slots.now area.now sheet.old sheet.new reply.old reply.new result }
{
    host_sheet::write::write(slots, area, sheet, reply)
}

// Reads a sheet, and sets slots and area.
#[unsafe(no_mangle)]
pub extern "C" fn curlew_sheet_read(
    sheet: &[u8],
    slots: &mut [u8],
    area: &mut [u8],
    mark: usize,
    reply: &mut [u8],
) -> u32
    ensures { HostReadsSheet sheet.now slots.old slots.new area.old area.new mark reply.old reply.new result }
{
    host_sheet::read::read(sheet, slots, area, mark, reply)
}

// Keeps what is whole at the front of a damaged sheet, and sets slots and area.
#[unsafe(no_mangle)]
pub extern "C" fn curlew_sheet_rescue(
    sheet: &[u8],
    legs: usize,
    slots: &mut [u8],
    area: &mut [u8],
    mark: usize,
    reply: &mut [u8],
) -> u32
    ensures { HostRescues sheet.now legs slots.old slots.new area.old area.new mark reply.old reply.new result }
{
    host_sheet::damaged::rescue(sheet, legs, slots, area, mark, reply)
}

// Reads two copies of a record by their layout, each into its own table and area, and says for each value field what
// differs.
#[unsafe(no_mangle)]
pub extern "C" fn curlew_compare(
    layout: &[u8],
    first: &[u8],
    second: &[u8],
    first_slots: &mut [u8],
    first_area: &mut [u8],
    second_slots: &mut [u8],
    second_area: &mut [u8],
    report: &mut [u8],
    reply: &mut [u8],
) -> u32
    ensures { HostCompares layout.now first.now second.now first_slots.old first_slots.new first_area.old first_area.new second_slots.old second_slots.new second_area.old second_area.new report.old report.new
        reply.old reply.new result }
{
    host_compare::compare(
        layout,
        first,
        second,
        first_slots,
        first_area,
        second_slots,
        second_area,
        report,
        reply,
    )
}

// The mean of the marked legs of a table, and how many of its slots are not set.
#[unsafe(no_mangle)]
pub extern "C" fn curlew_mean(slots: &[u8], area: &[u8], reply: &mut [u8]) -> u32
    ensures { HostMeans slots.now area.now reply.old reply.new result }
{
    host_mean::mean(slots, area, reply)
}

// Writes the layout that a Perl template stands for.
#[unsafe(no_mangle)]
pub extern "C" fn curlew_from_perl(template: &[u8], layout: &mut [u8], reply: &mut [u8]) -> u32
    ensures { HostConverts template.now layout.old layout.new reply.old reply.new result }
{
    host_layout::templates::from_perl(template, layout, reply)
}

// Says how many slots a layout takes and how long its shortest record is.
#[unsafe(no_mangle)]
pub extern "C" fn curlew_layout(layout: &[u8], reply: &mut [u8]) -> u32
    ensures { HostDescribes layout.now reply.old reply.new result }
{
    host_layout::layouts::describe(layout, reply)
}

// Writes a row of eight numbers for each field of a layout.
#[unsafe(no_mangle)]
pub extern "C" fn curlew_fields(layout: &[u8], fields: &mut [u8], reply: &mut [u8]) -> u32
    ensures { HostLists layout.now fields.old fields.new reply.old reply.new result }
{
    host_layout::rows::fields(layout, fields, reply)
}

// Says where a layout breaks each promise: to grow at its end, to lose nothing when it is read, to be joined.
#[unsafe(no_mangle)]
pub extern "C" fn curlew_promises(layout: &[u8], reply: &mut [u8]) -> u32
    ensures { HostPromises layout.now reply.old reply.new result }
{
    host_layout::theorems::promises(layout, reply)
}

// Says whether the new layout is the old one with fields added at its end.
#[unsafe(no_mangle)]
pub extern "C" fn curlew_extends(old: &[u8], new: &[u8], reply: &mut [u8]) -> u32
    ensures { HostExtends old.now new.now reply.old reply.new result }
{
    host_layout::theorems::extends(old, new, reply)
}

// The version of the library, for a program that was compiled with one header and runs with another archive.
#[unsafe(no_mangle)]
pub extern "C" fn curlew_version() -> u32
    ensures { result ≡ version }
{
    2001
}
