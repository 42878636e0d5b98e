// Endings: the earliest block of a transaction, the transactions of a mask and their ancestors, the tests 33 and 34.

#![tactic(auto)]

pub mod block;
pub mod ending;
pub mod planned;
