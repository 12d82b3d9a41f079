// The first pass of a packing: every argument checked, the length measured, nothing written.
#![tactic(auto)]

// The exact check of one argument.
pub mod arguments;
// A quick test, which most arguments pass.
mod quick_check;
// The pass over the fields.
pub mod measuring;
