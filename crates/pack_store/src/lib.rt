// The second pass of a packing: every field stored.
#![tactic(auto)]

// One value stored.
pub mod stores;
// The pass over the fields.
pub mod writing;
