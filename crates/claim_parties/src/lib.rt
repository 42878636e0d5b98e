// A sheet of two beside the sheet of three with the same transactions: claims about the rules, with no code: see specs/ and proofs/.

#![tactic(auto)]
