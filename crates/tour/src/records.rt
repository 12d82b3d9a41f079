// The run-through program: the examples of the manual pages and the edges of the rules, a line for each call.
mod cuts;
mod examples;
mod packing;
mod readings;

use std::io;

pub fn main(rt: &(impl Print + AllocGlobal)) -> io::Result<()> {
    examples::packings(rt)?;
    packing::sizes(rt)?;
    examples::outputs_and_readings(rt)?;
    readings::kept(rt)?;
    examples::places_and_refusals(rt)?;
    readings::sizes(rt)?;
    readings::areas(rt)?;
    examples::marks(rt)?;
    cuts::table(rt)
}
