// What is read once for a position and a party, from which is told what the party keeps.

#![tactic(auto)]

pub mod coins;
pub mod come;
pub mod kinds;
pub mod knows;
pub mod lines;
pub mod locks;
pub mod marking;
pub mod mask;
pub mod paid;
pub mod parents;
pub mod pool;
pub mod rival;
pub mod rivals;
pub mod seen;
pub mod table;
pub mod threshold;
pub mod until;

// What a position tells of each transaction for a party X: sets as masks, and tables with a number or a set for each transaction t.
#[derive(Clone, Copy)]
pub struct Marks {
    pub count: usize,
    pub stealth: u32,
    // confirmed or dead
    pub gone: u32,
    // the contract transactions; these and those that pay X
    pub contract: u32,
    pub payable: u32,
    // in the pool for X, a contract transaction for the contract
    pub pooled: u32,
    // those that X can sign when they are next
    pub signs: u32,
    // those whose parent is confirmed or none; those whose parent is neither and can come
    pub fixed: u32,
    pub runs: u32,
    // locked since the parent
    pub since: u32,
    // in pool or block; for a destination other than X
    pub waits: u32,
    pub apart: u32,
    // the lock height with the parent in its block or its soonest one
    pub lock: [u32; 32],
    // the rivals of t, itself included
    pub rivals: [u32; 32],
    // the unconfirmed strict ancestors of t
    pub above: [u32; 32],
    // those of other coins than t's
    pub foreign: [u32; 32],
}
