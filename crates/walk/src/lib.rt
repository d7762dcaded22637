// The breadth-first walk over the keys of residuals, with a limit on their number: its model and the theory of it.
// This crate holds definitions and proofs only.
#![tactic(auto)]
