// Rule files as they were before C-12, whose "at least" had a body of two bytes: they keep their judgement, their rule
// and their table. This crate holds definitions and proofs only.
#![tactic(auto)]
