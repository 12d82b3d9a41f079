#![tactic(auto)]

// What is proved of comparing besides the call: claims about the definitions, worked examples, and no code.
