// Going round a row of watches, from the number last heard: theorems, no code.
#![tactic(auto)]
