// What a hand-in gives away: claims about the rules and about what the list call writes, with no code: see specs/ and proofs/.

#![tactic(auto)]
