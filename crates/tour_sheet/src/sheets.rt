// Tables stored as sheets and read back: a line for each call, with what it is lent, the answer's
// three numbers, and what it wrote.
mod examples;
mod reading;
mod writing;

use std::io;

fn written(rt: &(impl Print + AllocGlobal)) -> io::Result<()> {
    examples::written(rt)?;
    writing::slots(rt)?;
    println!(rt; "\nWriting: refusals and limits")?;
    writing::refusals(rt)?;
    writing::sizes(rt)?;
    writing::kept(rt)
}

pub fn main(rt: &(impl Print + AllocGlobal)) -> io::Result<()> {
    written(rt)?;
    examples::read(rt)?;
    reading::sizes(rt)?;
    examples::kept(rt)
}
