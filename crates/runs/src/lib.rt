#![tactic(auto)]

// Runs over the fields of a layout, where they end and what they store: definitions and laws that the theorems share,
// and no code.
