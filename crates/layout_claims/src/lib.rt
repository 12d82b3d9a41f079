#![tactic(auto)]

// What a layout text is, said by its form: a grammar, the claims about the layout reader,
// worked examples, and no code.
