// Ask first, commit after: whether a step would pass after a journal, and the step written behind it.

#![tactic(auto)]

pub mod ask;
pub mod commit;
