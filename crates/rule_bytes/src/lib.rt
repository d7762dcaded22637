// Rule files as they are written: they read back, and say what their text's tree says. This crate holds definitions and
// proofs only.
#![tactic(auto)]
