// The laws of a desk over whole histories: theorems, no code.
#![tactic(auto)]
