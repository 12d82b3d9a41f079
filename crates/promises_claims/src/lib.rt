#![tactic(auto)]

// What the answers of `promises` and `extends` have to do with the three theorems: the claim is in specs/, its proof in
// proofs/. No code.
