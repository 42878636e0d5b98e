// What the earliest block list comes to: see specs/.

#![tactic(auto)]
