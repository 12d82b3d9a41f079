// What holds of sheets besides the calls: worked examples, what readers before version 2 and before reals make of
// today's sheets and today's reader of theirs, and what a table keeps that is written and read back. The claims are in
// specs/, their proofs in proofs/.
#![tactic(auto)]

// A table written and read back: `keep`.
pub mod keep;
