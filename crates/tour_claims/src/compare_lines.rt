// Two copies of a record compared: a line for each call, with the layout, both records, the
// answer's three numbers, and the report, which is lent full of nines.
mod comparing;
mod examples;

use std::io;

fn refusals(rt: &(impl Print + AllocGlobal)) -> io::Result<()> {
    comparing::short_tables(rt)?;
    comparing::ragged_tables(rt)?;
    comparing::short_areas(rt)?;
    comparing::long_areas(rt)?;
    comparing::records(rt)
}

pub fn main(rt: &(impl Print + AllocGlobal)) -> io::Result<()> {
    examples::verdicts(rt)?;
    refusals(rt)?;
    examples::reports(rt)
}
