// The theory of monitors (Moore machines): grouping, quotient, breadth-first numbering, smallest size, canonical
// form. This crate holds definitions and proofs only.
#![tactic(auto)]
