// What the check of a block list comes to: see specs/.

#![tactic(auto)]
