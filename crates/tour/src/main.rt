// The run-through program of packing, reading and layouts: a line for each call, held to the stored output.
#![tactic(auto)]

use std::io;

// The manual's examples and the edges of the rules.
mod records;
// Reals.
mod real_lines;
// Layouts described.
mod layouts;
// Layouts prepared once.
mod plan_lines;
// Perl templates.
mod templates;

fn main(rt: HostRuntime) -> io::Result<()> {
    records::main(&rt)?;
    real_lines::main(&rt)?;
    layouts::main(&rt)?;
    plan_lines::main(&rt)?;
    templates::main(&rt)
}
