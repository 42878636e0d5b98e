// Whether some bump is owed in a position.
ghost use Rattle.std.specs.Prelude.{◌<◌, ◌≡◌, ltb};
ghost use Rattle.laws.specs.Booleans.{pick};
ghost use Rattle.laws.specs.Below.{any_below};
ghost use Rattle.sheet.specs.Field.{count};
ghost use Rattle.sheet.specs.Checked.{Fit};
ghost use Rattle.sheet.specs.LockHeight.{never};
ghost use Rattle.position.specs.Owed.{any_owed, owed};
ghost use Rattle.position.specs.Forms.View.{view_below};
ghost use Rattle.position.specs.Forms.Owed.{due_in, soonest_in, due_before, DueKnown};

use crate::Position;
use sheet::field::Sheet;
use slots::{deadline, lock_height, next};
use steps::{View, owed};

// A height above the blocks mined, else never.
fn ahead(mined: u16, height: u32) -> u32
    ensures { result ≡ pick (ltb mined height) height never }
{
    if u32::from(mined) < height {
        return height;
    }
    lock_height::NEVER
}

impl Position {
    // Whether a bump of t is owed.
    pub fn owed(self, sheet: &Sheet, setup: &[u8], view: View, t: usize) -> bool
        requires fit { Fit sheet.now.bytes setup.now }
        requires view_value { view ≡ view_below sheet.now.bytes (count sheet.now.bytes) self }
        requires t_bound { t < count sheet.now.bytes }
        ensures { result ≡ owed sheet.now.bytes setup.now self t }
    {
        let since = self.since(sheet, t);
        owed::owed_at(sheet, sheet::setup::per_day(setup), view, since, t)
    }

    // Whether the next block is the deadline of any of a set.
    fn any_due(self, sheet: &Sheet, per_day: u16, mined: u16, among: u32) -> bool
        ensures { result ≡ any_below (count sheet.now.bytes) (due_in sheet.now.bytes per_day self mined among) }
    {
        let n = sheet.count();
        next::members(among, n).any(|t| u32::from(mined) + 1
            == self.deadline_with(sheet, per_day, t))
    }

    // Whether any is. Only those outside the block that can have a deadline are looked at.
    pub fn any_owed(self, sheet: &Sheet, setup: &[u8], view: View) -> bool
        requires fit { Fit sheet.now.bytes setup.now }
        requires view_value { view ≡ view_below sheet.now.bytes (count sheet.now.bytes) self }
        ensures { result ≡ any_owed sheet.now.bytes setup.now self }
    {
        let among = view.pool & !view.block & view.expiring;
        if among == 0 {
            return false;
        }
        self.any_due(sheet, sheet::setup::per_day(setup), view.mined, among)
    }

    // The least deadline above the blocks mined of the members of a set, else never.
    fn soonest_in(self, sheet: &Sheet, per_day: u16, mined: u16, among: u32) -> u32
        ensures { result ≡ soonest_in sheet.now.bytes per_day self mined among }
    {
        let n = sheet.count();
        let mut best: u32 = lock_height::NEVER;
        for t in next::members(among, n) {
            let height = self.deadline_with(sheet, per_day, t);
            best = deadline::lower(best, ahead(mined, height));
        }
        best
    }

    // The soonest deadline ahead of those that wait outside the block, before a block is mined; 0 before another step. It is looked for
    // where nothing is known of it, which is 0.
    pub fn soonest_due(self, sheet: &Sheet, setup: &[u8], view: View, kind: u8, known: u32) -> u32
        requires fit { Fit sheet.now.bytes setup.now }
        requires view_value { view ≡ view_below sheet.now.bytes (count sheet.now.bytes) self }
        requires due_known { DueKnown sheet.now.bytes setup.now self known }
        ensures { result ≡ due_before sheet.now.bytes setup.now self kind }
    {
        if kind != 6 {
            return 0;
        }
        if known != 0 {
            return known;
        }
        let among = view.pool & !view.block & view.expiring;
        if among == 0 {
            return lock_height::NEVER;
        }
        self.soonest_in(sheet, sheet::setup::per_day(setup), view.mined, among)
    }
}
