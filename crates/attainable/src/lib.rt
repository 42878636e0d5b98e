// What can come without a party.

#![tactic(auto)]

mod lack;
pub mod read;
pub mod round;

// What the others have and what waits, read off a position once for a party X.
#[derive(Clone, Copy)]
pub struct Others {
    pub confirmed: u32,
    // confirmed or dead
    pub gone: u32,
    // in pool or block; for a destination other than X
    pub waits: u32,
    pub waits_elsewhere: u32,
    // those that X may send; for a destination other than X
    pub sends: u32,
    pub sends_elsewhere: u32,
    // the shared secrets, and those that each transaction shows
    pub secrets: u8,
    pub shows: [u8; 32],
    // what the others lack of each transaction for a destination, but for the secrets of a set; 256 where they may not send it
    pub alice: [u16; 32],
    pub bob: [u16; 32],
    pub contract: [u16; 32],
    pub carol: [u16; 32],
}
