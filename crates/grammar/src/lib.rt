// Rule text: that a text reads in one way at most, which texts fit and where one does not, by a machine over bytes
// and a descent over signs. This crate holds definitions and proofs only.
#![tactic(auto)]
