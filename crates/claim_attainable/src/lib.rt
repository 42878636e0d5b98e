// Claims about the rules, with no code: see specs/ and proofs/.

#![tactic(auto)]
