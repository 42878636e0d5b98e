// What a mined block does to a position: kind 6.
ghost use Rattle.std.specs.Prelude.{◌+◌, ◌<◌, ◌≡◌};
ghost use Rattle.sheet.specs.Field.{count};
ghost use Rattle.sheet.specs.Checked.{Checked};
ghost use Rattle.position.specs.Forms.View.{view_below};
ghost use Rattle.position.specs.Effect.{after_mine};

use crate::Position;
use sheet::field::Sheet;
use slots::next;
use steps::{View, mined};

impl Position {
    // A mined block: its entries are confirmed and leave the pool, and who conflicts with another of them leaves it too.
    pub fn after_entries(mut self, sheet: &Sheet, view: View) -> Position
        requires checked { Checked sheet.now.bytes }
        requires view_value { view ≡ view_below sheet.now.bytes (count sheet.now.bytes) self }
        requires mined_bound { self.mined < 10000 }
        ensures { result ≡ after_mine sheet.now.bytes self }
    {
        let leaving = mined::conflicted(sheet, view);
        let block = self.mined + 1;
        let members = mined::affected(view, leaving);
        let n = sheet.count();
        for t in next::members(members, n) {
            let x = self.slots[t];
            let y = mined::mined_slot(sheet, block, view.block, leaving, t, x);
            self.slots[t] = y;
        }
        self.mined = block;
        self
    }
}
