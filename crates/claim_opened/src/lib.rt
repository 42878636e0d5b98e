// What the counts of a position come to: definitions and proofs alone.

#![tactic(auto)]
