// Sheets for a C host: `write::write`, `read::read` and, for damaged ones, `damaged::rescue`.
#![tactic(auto)]

pub mod damaged;
pub mod read;
pub mod write;
