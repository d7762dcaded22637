// What document 02 says of two recordings, over every table and all recordings. This crate holds definitions and
// proofs only.
#![tactic(auto)]
