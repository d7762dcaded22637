// The residual system of a rule in linear temporal logic: its executable definitions and the proof of its laws. This
// crate holds definitions and proofs only.
#![tactic(auto)]
