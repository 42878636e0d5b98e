// Laws about steps: what each kind of step moves and what it leaves as it was. No functions.

#![tactic(auto)]
