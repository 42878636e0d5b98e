// The lock height over any block of the parent, 0 where it has none.
ghost use Rattle.std.specs.Prelude.{◌<◌};
ghost use Rattle.sheet.specs.Field.{count};
ghost use Rattle.slots.specs.Forms.Height.{Lock};
ghost use Rattle.soonest.specs.Soonest.{lock_at};

use sheet::field::Sheet;
use slots::lock_height;

// The lock height of t with its parent in block e.
pub fn lock_at(sheet: &Sheet, per_day: u16, e: u32, t: usize) -> u32
    requires t_bound { t < count sheet.now.bytes }
    requires e_bound { e < 3000000000 }
    ensures { Lock (lock_at sheet.now.bytes per_day e t) e result }
{
    lock_height::lock_over(sheet, per_day, e, t)
}
