// What the run-through programs share: tables named by texts, lists of examples, and how things are shown.
#![tactic(auto)]

pub mod lists;
pub mod notation;
pub mod print;
pub mod values;
