// For how long a party can take no step and still keep a way to a payout.

#![tactic(auto)]
