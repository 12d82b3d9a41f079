#![tactic(auto)]

// What C programs may count on of calls one after the other: claims on the calls for a C host, and no code.
