// The smallest table of a residual system, and demands 2 and 3 of it. This crate holds definitions and proofs only.
#![tactic(auto)]
