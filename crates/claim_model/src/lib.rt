// What document 001's model checks, and a fair ending: claims about the rules, with no code: see specs/ and proofs/.

#![tactic(auto)]
