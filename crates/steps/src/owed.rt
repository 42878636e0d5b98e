// When a bump is owed.
ghost use Rattle.std.specs.Prelude.{◌+◌, ◌<◌, ◌≡◌, eqb};
ghost use Rattle.sheet.specs.Field.{count};
ghost use Rattle.steps.specs.Forms.Mining.{owed_in, still_due};

use crate::View;
use sheet::field::Sheet;
use sheet::set;
use slots::deadline;

// Whether a bump of t is owed, where `since` is its parent's block.
pub fn owed_at(sheet: &Sheet, per_day: u16, view: View, since: u16, t: usize) -> bool
    requires t_bound { t < count sheet.now.bytes }
    ensures { result ≡ owed_in sheet.now.bytes per_day view since t }
{
    if !set::has(view.pool, t) {
        return false;
    }
    if set::has(view.block, t) {
        return false;
    }
    u32::from(view.mined) + 1 == deadline::deadline(sheet, per_day, since, t)
}

// Whether the next block is this deadline.
pub fn is_next(mined: u16, due: u32) -> bool
    ensures { (result ≡ eqb (mined + 1) due) × (mined < 65536) }
{
    u32::from(mined) + 1 == due
}

// What is known after a step of the soonest deadline before it: an empty block leaves it; else nothing, which is 0.
pub fn still_due(kind: u8, block: u32, due: u32) -> u32
    ensures { result ≡ still_due kind block due }
{
    if kind != 6 {
        return 0;
    }
    if block != 0 {
        return 0;
    }
    due
}
