// The bytes of a table file as they are written, and that they read back. This crate holds definitions and proofs only.
#![tactic(auto)]
