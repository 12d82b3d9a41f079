// The run-through program of several calls together: a line for each, held to the stored output.
#![tactic(auto)]

use std::io;

// Records read and packed again.
mod lossless_lines;
// Records of two layouts.
mod joined_lines;
// Copies compared.
mod compare_lines;

fn main(rt: HostRuntime) -> io::Result<()> {
    lossless_lines::main(&rt)?;
    joined_lines::main(&rt)?;
    compare_lines::main(&rt)
}
