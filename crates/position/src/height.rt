// Heights in a position.
ghost use Rattle.std.specs.Prelude.{◌<◌, ◌≡◌};
ghost use Rattle.sheet.specs.Field.{count};
ghost use Rattle.sheet.specs.Checked.{Fit};
ghost use Rattle.slots.specs.Deadline.{deadline};
ghost use Rattle.slots.specs.Forms.Height.{Height};
ghost use Rattle.position.specs.Position.{block_of, deadline_in};
ghost use Rattle.position.specs.Forms.View.{since_in};

use crate::Position;
use sheet::field::Sheet;
use slots::deadline;
use steps::parent;

impl Position {
    // The block of a transaction's confirmation, 0 while there is none.
    pub fn block_of(self, t: usize) -> u16
        ensures { result ≡ block_of self t }
    {
        if t < 32 {
            return self.slots[t].height;
        }
        0
    }

    // The block of the parent's confirmation; 0 while there is none, and for an opening.
    pub fn since(&self, sheet: &Sheet, t: usize) -> u16
        requires t_bound { t < count sheet.now.bytes }
        ensures { result ≡ since_in sheet.now.bytes self.now t }
    {
        let up = parent::slot_above(sheet, t);
        parent::block_above(sheet, t, self.slots[up].height)
    }

    // The deadline of t, since its parent's block.
    pub fn deadline_with(&self, sheet: &Sheet, per_day: u16, t: usize) -> u32
        requires t_bound { t < count sheet.now.bytes }
        ensures { Height (deadline sheet.now.bytes per_day (λ k. since_in sheet.now.bytes self.now t) t) result }
    {
        deadline::deadline(sheet, per_day, self.since(sheet, t), t)
    }

    // The deadline of a transaction.
    pub fn deadline_in(self, sheet: &Sheet, setup: &[u8], t: usize) -> u32
        requires fit { Fit sheet.now.bytes setup.now }
        requires t_bound { t < count sheet.now.bytes }
        ensures { Height (deadline_in sheet.now.bytes setup.now self t) result }
    {
        self.deadline_with(sheet, sheet::setup::per_day(setup), t)
    }
}
