#![tactic(auto)]

// What is proved of Perl templates besides the call: claims about the definitions, worked examples, and no code.
