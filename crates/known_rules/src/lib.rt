// Document 01's table of known rules, and that each line of it holds. This crate holds definitions and proofs only.
#![tactic(auto)]
