// Deadlines, over the block of the parent's confirmation: rivals have one parent.
ghost use Rattle.std.specs.Prelude.{◌<◌, min, ◌≡◌, false, ◌&&◌, eqb, ltb};
ghost use Rattle.laws.specs.Booleans.{pick};
ghost use Rattle.sheet.specs.Field.{count, parent, opening};
ghost use Rattle.sheet.specs.LockHeight.{never, lock_height};
ghost use Rattle.slots.specs.Forms.Height.{Height};
ghost use Rattle.slots.specs.Deadline.{deadline};

use crate::lock_height;
use sheet::field::Sheet;

// The lower of two heights.
pub fn lower(best: u32, height: u32) -> u32
    ensures { result ≡ min best height }
{
    if best <= height { best } else { height }
}

// The lock height of k where k is a child of `up` with a higher lock than `own`, else never.
fn rival_height(sheet: &Sheet, per_day: u16, since: u16, own: u32, up: usize, k: usize) -> u32
    requires k_bound { k < count sheet.now.bytes }
    ensures { Height (pick (eqb up (parent sheet.now.bytes k) && ltb own (lock_height sheet.now.bytes per_day (λ j. since) k)) (lock_height sheet.now.bytes per_day (λ j. since) k) never) result }
{
    if sheet.parent(k) != up {
        return lock_height::NEVER;
    }
    let height = lock_height::lock_height(sheet, per_day, since, k);
    if own < height {
        return height;
    }
    lock_height::NEVER
}

// The deadline of t, where `since` is its parent's block, for t that is no opening.
fn deadline_among(sheet: &Sheet, per_day: u16, since: u16, t: usize) -> u32
    requires t_bound { t < count sheet.now.bytes }
    requires t_value { opening sheet.now.bytes t ≡ false }
    ensures { Height (deadline sheet.now.bytes per_day (λ k. since) t) result }
{
    let own = lock_height::lock_height(sheet, per_day, since, t);
    let up = sheet.parent(t);
    let mut best: u32 = lock_height::NEVER;
    for k in 0..sheet.count() {
        best = lower(best, rival_height(sheet, per_day, since, own, up, k));
    }
    best
}

// The deadline of t, where `since` is its parent's block. An opening rivals only itself, so it has none.
pub fn deadline(sheet: &Sheet, per_day: u16, since: u16, t: usize) -> u32
    requires t_bound { t < count sheet.now.bytes }
    ensures { Height (deadline sheet.now.bytes per_day (λ k. since) t) result }
{
    if sheet.opening(t) {
        return lock_height::NEVER;
    }
    deadline_among(sheet, per_day, since, t)
}
