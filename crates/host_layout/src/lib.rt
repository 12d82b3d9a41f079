// The calls on layouts for a C host.
#![tactic(auto)]

// A layout described: its slots and its shortest record.
pub mod layouts;
// The fields of a layout, a row each.
pub mod rows;
// Which theorems cover a layout, and whether one layout is another with fields added.
pub mod theorems;
// A Perl template as a layout.
pub mod templates;
