#![tactic(auto)]

// What the rows of a layout's fields have to do with its text, with packing and with readings: the claim is in specs/,
// its proof in proofs/. No code.
