// What is read off a position, over views, single slots and the sheet: open steps, rows of a report, holders.

#![tactic(auto)]

pub mod holder;
pub mod open;
pub mod report;
pub mod reported;

use steps::{Guards, View};

// What is the same for all steps of one actor in a position.
#[derive(Clone, Copy)]
pub struct Context {
    pub view: View,
    pub guards: Guards,
    // a careful party that can send a transaction that pays it, and so sends no contract transaction
    pub paying: bool,
    // some bump is owed
    pub owed: bool,
    // the actor's first shares are made
    pub made: bool,
}

// The transactions of a sheet that go to each destination, as sets.
#[derive(Clone, Copy)]
pub struct DestinationSets {
    pub alice: u32,
    pub bob: u32,
    pub carol: u32,
    pub contract: u32,
}

// A transaction's row of a report: its block, 0 while it is unconfirmed, its lock height and deadline, its status and its
// payee, 255 while it is unconfirmed.
#[derive(Clone, Copy)]
pub struct Row {
    pub block: u32,
    pub lock: u32,
    pub deadline: u32,
    pub status: u8,
    pub payee: u8,
}
