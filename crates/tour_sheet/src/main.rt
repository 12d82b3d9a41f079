// The run-through program of sheets and marks: a line for each call, held to the stored output.
#![tactic(auto)]

use std::io;

// Tables stored as sheets and read back.
mod sheets;
// Damaged sheets.
mod rescues;
// Means of marked legs.
mod means;

fn main(rt: HostRuntime) -> io::Result<()> {
    sheets::main(&rt)?;
    rescues::main(&rt)?;
    means::main(&rt)
}
