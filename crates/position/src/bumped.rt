// What a bump does to a position: kind 7.
ghost use Rattle.std.specs.Prelude.{◌<◌, ◌≡◌};
ghost use Rattle.sheet.specs.Field.{count};
ghost use Rattle.sheet.specs.Checked.{Checked};
ghost use Rattle.position.specs.Forms.View.{view_below};
ghost use Rattle.position.specs.Effect.{after_bump};

use crate::Position;
use sheet::field::Sheet;
use slots::next;
use steps::{View, bumped};

impl Position {
    // A bump of t: it and its waiting ancestors enter the block, and who conflicts with them leaves it.
    pub fn after_bump(mut self, sheet: &Sheet, view: View, t: usize) -> Position
        requires checked { Checked sheet.now.bytes }
        requires view_value { view ≡ view_below sheet.now.bytes (count sheet.now.bytes) self }
        requires t_bound { t < count sheet.now.bytes }
        ensures { result ≡ after_bump sheet.now.bytes t self }
    {
        let entering = bumped::entering(sheet, view, t);
        let leaving = bumped::displaced(sheet, view, entering);
        let members = view.pool | view.block;
        let n = sheet.count();
        for k in next::members(members, n) {
            let x = self.slots[k];
            let y = bumped::bumped_slot(sheet, entering, leaving, k, x);
            self.slots[k] = y;
        }
        self
    }
}
