// From a typed text to its table: demands 2 and 3 of what was typed. This crate holds definitions and proofs only.
#![tactic(auto)]
