// The steps as bytes, and what each kind of step reads and changes: over the sheet, a view of the position and single slots.

#![tactic(auto)]

ghost use Rattle.std.specs.Prelude.{◌<◌, ◌≡◌};
ghost use Rattle.steps.specs.Forms.View.{view_with, view_after, view_passed};

pub mod bumped;
pub mod conduct;
pub mod decode;
pub mod mined;
pub mod mining;
pub mod names;
pub mod owed;
pub mod parent;
pub mod sending;
pub mod sharing;

use slots::Slot;

// What the tests read off a position: the transactions in the pool, in the block being filled and
// confirmed, as masks; the signatures shared of any; the blocks mined; the keys held. And off the sheet:
// the transactions that can have a deadline.
#[derive(Clone, Copy)]
pub struct View {
    pub pool: u32,
    pub block: u32,
    pub confirmed: u32,
    pub expiring: u32,
    pub mined: u16,
    pub shared: u8,
    // by party number, as in a position
    pub keys: [u8; 6],
}

// What conduct reads off a position.
#[derive(Clone, Copy)]
pub struct Guards {
    // open conduct: nothing below is asked for
    pub free: bool,
    pub careful: bool,
    pub phase: u8,
    pub late: bool,
    // refund_1 is in the pool or confirmed
    pub refund: bool,
    // success has no shared entry
    pub unshared: bool,
    // Alice holds secret_bob
    pub knows: bool,
    // what Bob has for success
    pub bob_has: u8,
}

impl View {
    // A view with one transaction more.
    pub fn add(self, k: usize, x: Slot) -> View
        requires { k < 32 }
        ensures { result ≡ view_with self k x }
    {
        let keys = self.keys;
        View {
            pool: sheet::set::join(self.pool, 0 < x.pool, k),
            block: sheet::set::join(self.block, 0 < x.block, k),
            confirmed: sheet::set::join(self.confirmed, 0 < x.height, k),
            expiring: self.expiring,
            mined: self.mined,
            shared: self.shared | x.shared_any(),
            keys,
        }
    }

    // The view after a step that changed no other slot than k's, which is x then.
    pub fn after(self, k: usize, x: Slot, mined: u16, keys: [u8; 6]) -> View
        requires { k < 32 }
        ensures { result ≡ view_after self k x mined keys }
    {
        let pool = sheet::set::remove(self.pool, k);
        let block = sheet::set::remove(self.block, k);
        View {
            pool: sheet::set::join(pool, 0 < x.pool, k),
            block: sheet::set::join(block, 0 < x.block, k),
            confirmed: sheet::set::join(self.confirmed, 0 < x.height, k),
            expiring: self.expiring,
            mined,
            shared: self.shared | x.shared_any(),
            keys,
        }
    }

    // The view after a step that changed no slot.
    pub fn passed(self, mined: u16, keys: [u8; 6]) -> View
        ensures { result ≡ view_passed self mined keys }
    {
        View {
            pool: self.pool,
            block: self.block,
            confirmed: self.confirmed,
            expiring: self.expiring,
            mined,
            shared: self.shared,
            keys,
        }
    }
}
