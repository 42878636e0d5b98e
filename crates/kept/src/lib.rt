// What a party keeps while it takes no step, from what is read once for a position and the party.

#![tactic(auto)]

pub mod counted;
pub mod greatest;
pub mod kept;

// What is read once for a position and a party X. A set is a mask; a table has a number for each transaction t, or at 32 * t + k one for t
// and k. A height in `fails`, `beat` or `until` is 4294967295 where there is none.
#[derive(Clone, Copy)]
pub struct Prospect {
    pub count: usize,
    pub mined: u32,
    pub stealth: u32,
    // a confirmed transaction pays X: an answer for itself, whatever the others are
    pub paid: bool,
    // the contract transactions
    pub contract: u32,
    // those whose parent is confirmed or none
    pub fixed: u32,
    // the parent of t as a set, empty for an opening
    pub up: [u32; 32],
    // the unconfirmed ones of t's line
    pub line: [u32; 32],
    // the unconfirmed ones of other coins that pay X
    pub aims: [u32; 32],
    // the others that can come for X only
    pub only: [u32; 32],
    // the signatures that X knows when t is next
    pub known: [u32; 32],
    // the secrets of t
    pub secrets: [u32; 32],
    // the signatures that t lacks, none where it is in the pool
    pub lacks: [u32; 32],
    // the height from which t fails
    pub fails: [u32; 32],
    // the height of t's last block but for stealth, where the outage is not later
    pub ends: [u32; 32],
    // the height from which k beats t
    pub beat: [u32; 1024],
    // the height from which k of another coin, whatever X knows, fails or is beaten beside what is above t
    pub until: [u32; 1024],
}
