// What C-14 leaves as it was, in specs/ and proofs/: the judgement and the table of every rule file but those whose
// second record has kind 257.
#![tactic(auto)]
