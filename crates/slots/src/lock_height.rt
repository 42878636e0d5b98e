// Lock heights, over any block of the parent, 0 where it has none.
ghost use Rattle.std.specs.Prelude.{◌<◌, ◌≡◌};
ghost use Rattle.sheet.specs.Field.{count};
ghost use Rattle.sheet.specs.LockHeight.{lock_blocks, since_parent, lock_height};
ghost use Rattle.slots.specs.Forms.Height.{Blocks, Lock, Height};

use sheet::field::Sheet;

// "Never": above every height that is reached. A number, since a report writes it so (`never` of sheet/specs/LockHeight.antt).
pub const NEVER: u32 = 2147483647;

// The blocks of a transaction's lock: days times blocks per day.
pub fn lock_blocks(sheet: &Sheet, per_day: u16, t: usize) -> u32
    requires t_bound { t < count sheet.now.bytes }
    ensures { Blocks (lock_blocks sheet.now.bytes per_day t) result }
{
    let days = sheet.days(t);
    u32::from(days) * u32::from(per_day)
}

// The parent's block plus the product, or never where the parent has no block.
fn since_parent(block: u32, blocks: u32) -> u32
    requires block_bound { block < 3000000000 }
    requires blocks_bound { blocks < 16777216 }
    ensures { Lock (since_parent block blocks) block result }
{
    if block == 0 {
        return NEVER;
    }
    block + blocks
}

// The lock height of t with its parent in block e.
pub fn lock_over(sheet: &Sheet, per_day: u16, e: u32, t: usize) -> u32
    requires t_bound { t < count sheet.now.bytes }
    requires e_bound { e < 3000000000 }
    ensures { Lock (lock_height sheet.now.bytes per_day (λ k. e) t) e result }
{
    let lock = sheet.lock_type(t);
    if lock == 0 {
        return 0;
    }
    let blocks = lock_blocks(sheet, per_day, t);
    if lock == 1 {
        return blocks;
    }
    since_parent(e, blocks)
}

// The lock height of t, where `since` is its parent's block.
pub fn lock_height(sheet: &Sheet, per_day: u16, since: u16, t: usize) -> u32
    requires t_bound { t < count sheet.now.bytes }
    ensures { Height (lock_height sheet.now.bytes per_day (λ k. since) t) result }
{
    lock_over(sheet, per_day, u32::from(since), t)
}
