// Claims about careful conduct, with no code: see specs/ and proofs/.

#![tactic(auto)]
