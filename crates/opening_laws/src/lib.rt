// The laws of states and desks under openings with distinct numbers: theorems, no code.
#![tactic(auto)]
