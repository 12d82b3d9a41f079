#![tactic(auto)]

// What a program may count on that has its layouts prepared: a plan is its layout. The claims are in specs/, their
// proofs in proofs/. No code.
