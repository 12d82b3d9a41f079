// Packing and reading for a C host: `pack::pack` and `read::read`.
#![tactic(auto)]

pub mod pack;
pub mod read;
