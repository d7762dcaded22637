// Lists made by index, tests over every index, and the laws of loops over them. This crate holds definitions and
// proofs only.
#![tactic(auto)]
