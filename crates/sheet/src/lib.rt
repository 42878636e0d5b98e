// The contract sheet and the setup: byte accessors, refusals by name, the checks 1 to 10, the SASwap sheet; sets of its transactions.

#![tactic(auto)]

pub mod check;
pub mod field;
pub mod little;
pub mod parents;
pub mod refusal;
pub mod saswap;
pub mod set;
pub mod setup;
pub mod table;
