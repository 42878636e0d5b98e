// The position of a contract, and the answers of a step and of a journal.

#![tactic(auto)]

ghost use Rattle.std.specs.Prelude.{◌<◌, ◌≡◌};
ghost use Rattle.sheet.specs.Field.{count};
ghost use Rattle.sheet.specs.Checked.{Checked};
ghost use Rattle.position.specs.Forms.View.{view_below};

mod bumped;
mod conduct;
pub mod effect;
pub mod height;
pub mod journal;
mod mined;
mod outcome;
mod owed;
pub mod seen;
pub mod step;

use sheet::field::Sheet;
use slots::{Slot, expiring};
use steps::View;

// "A position holds, for each of 32 transactions, its pool entry, block entry, confirmation and shared knowledge; beside these the
// blocks mined, each party's keys held and the shares it has made." 392 bytes, without padding.
#[derive(Clone, Copy, PartialEq, Eq)]
pub struct Position {
    pub slots: [Slot; 32],
    pub mined: u16,
    // keys held, by party number; six bytes, so that no record that holds a position is padded
    pub keys: [u8; 6],
}

// A step's refusal number and the position after it, whole, accepted or not.
#[derive(Clone, Copy)]
pub struct Stepped {
    // a number, as in take_step of specs/Play.antt
    pub refusal: u32,
    pub position: Position,
}

// A journal's refusal number, the steps accepted before it, and the position after these.
#[derive(Clone, Copy)]
pub struct Ran {
    // a number, as in run of specs/Play.antt
    pub refusal: u32,
    pub accepted: u32,
    pub position: Position,
}

impl Position {
    // The view of the sheet's transactions.
    pub fn view(self, sheet: &Sheet) -> View
        requires { Checked sheet.now.bytes }
        ensures { result ≡ view_below sheet.now.bytes (count sheet.now.bytes) self }
    {
        let n = sheet.count();
        let expiring = expiring::expiring(sheet);
        let keys = self.keys;
        let mut v = View {
            pool: 0,
            block: 0,
            confirmed: 0,
            expiring,
            mined: self.mined,
            shared: 0,
            keys,
        };
        for k in 0..n {
            v = v.add(k, self.slots[k]);
        }
        v
    }
}
