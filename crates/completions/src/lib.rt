// Completions of two recordings with gaps, and the laws of what is answered of them. This crate holds definitions and
// proofs only.
#![tactic(auto)]
