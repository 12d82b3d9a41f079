#![tactic(auto)]

// What the calls do not look at: the position in a slot, and the flag of a field that holds no integers.
// Claims, and no code.
