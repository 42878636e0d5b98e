// The earliest block of a transaction: recursion up the sheet, where a parent is always a lower number.
ghost use Rattle.std.specs.Prelude.{◌+◌, ◌*◌, ◌≤◌, ◌<◌};
ghost use Rattle.sheet.specs.Field.{count};
ghost use Rattle.ledger.specs.Ledger.{lock_from};
ghost use Rattle.endings.specs.Earliest.{earliest_from, earliest};
ghost use Rattle.endings.specs.Forms.Bounds.{Locked, Early};

use sheet::field::Sheet;
use slots::lock_height::lock_blocks;

// The lock of t over a block of its parent.
fn lock_from(sheet: &Sheet, per_day: u16, above: u32, t: usize) -> u32
    requires t_bound { t < count sheet.now.bytes }
    requires above_bound { above ≤ 536870944 }
    ensures { Locked (lock_from sheet.now.bytes per_day above t) above result }
{
    let lock = sheet.lock_type(t);
    if lock == 0 {
        return 0;
    }
    let blocks = lock_blocks(sheet, per_day, t);
    if lock == 1 {
        return blocks;
    }
    above + blocks
}

// The earliest block of t over its parent's.
fn earliest_from(sheet: &Sheet, per_day: u16, t: usize, above: u32) -> u32
    requires t_bound { t < count sheet.now.bytes }
    requires above_bound { above ≤ 16777217 * t + 1 }
    ensures { Early (earliest_from sheet.now.bytes per_day t above) t result }
{
    let next = lock_from(sheet, per_day, above, t) + 1;
    if above < next {
        return next;
    }
    above
}

// The earliest block of t.
pub fn earliest_block(sheet: &Sheet, per_day: u16, t: usize) -> u32
    requires t_bound { t < count sheet.now.bytes }
    ensures { Early (earliest sheet.now.bytes per_day t) t result }
{
    let up = sheet.parent(t);
    if up < t {
        let above = earliest_block(sheet, per_day, up);
        return earliest_from(sheet, per_day, t, above);
    }
    earliest_from(sheet, per_day, t, 1)
}
