// What building a rule file's table answers and leaves in the output; demands 1 to 3 of it, and what running and
// stepping the table show. This crate holds definitions and proofs only.
#![tactic(auto)]
