// The soonest deadline: the least of what counts at each rival.
ghost use Rattle.std.specs.Prelude.{◌<◌, min, ◌≡◌};
ghost use Rattle.laws.specs.Booleans.{pick};
ghost use Rattle.sheet.specs.Field.{count};
ghost use Rattle.sheet.specs.LockHeight.{never};
ghost use Rattle.slots.specs.Conflict.{conflict};
ghost use Rattle.soonest.specs.Soonest.{lock_at, since_locked, may_rise, counts_at};
ghost use Rattle.slots.specs.Forms.Height.{Lock};
ghost use Rattle.soonest.specs.Forms.Deadline.{deadline_over};

use crate::{lock, rival};
use sheet::field::Sheet;
use slots::lock_height;

// The lower of two heights.
fn lower(best: u32, height: u32) -> u32
    ensures { result ≡ min best height }
{
    if best <= height { best } else { height }
}

// Whether the lock of t is since the parent.
fn since_locked(sheet: &Sheet, t: usize) -> bool
    requires t_bound { t < count sheet.now.bytes }
    ensures { result ≡ since_locked sheet.now.bytes t }
{
    sheet.lock_type(t) == 2
}

// Whether a later block of their parent, which is unconfirmed where `since` is 0, can lift the lock height of k above that of t.
fn may_rise(sheet: &Sheet, since: u16, t: usize, k: usize) -> bool
    requires t_bound { t < count sheet.now.bytes }
    requires k_bound { k < count sheet.now.bytes }
    ensures { result ≡ may_rise sheet.now.bytes (λ j. since) t k }
{
    if since != 0 {
        return false;
    }
    if since_locked(sheet, t) {
        return false;
    }
    since_locked(sheet, k)
}

// What counts at k for t with their parent in block e, where `own` is the lock height of t: that of k where it is above; else the next
// height above t's where it may rise; else never.
fn counts_at(sheet: &Sheet, per_day: u16, since: u16, e: u32, own: u32, t: usize, k: usize) -> u32
    requires t_bound { t < count sheet.now.bytes }
    requires k_bound { k < count sheet.now.bytes }
    requires e_bound { e < 3000000000 }
    requires lock { Lock (lock_at sheet.now.bytes per_day e t) e own }
    ensures { result ≡ counts_at sheet.now.bytes per_day (λ j. since) e t k }
{
    let his = lock::lock_at(sheet, per_day, e, k);
    if own < his {
        return his;
    }
    if may_rise(sheet, since, t, k) {
        return own + 1;
    }
    lock_height::NEVER
}

// The same at a rival of t, and never at any other.
fn rival_at(sheet: &Sheet, per_day: u16, since: u16, e: u32, own: u32, t: usize, k: usize) -> u32
    requires t_bound { t < count sheet.now.bytes }
    requires k_bound { k < count sheet.now.bytes }
    requires e_bound { e < 3000000000 }
    requires lock { Lock (lock_at sheet.now.bytes per_day e t) e own }
    ensures { result ≡ pick (conflict sheet.now.bytes k t) (counts_at sheet.now.bytes per_day (λ j. since) e t k) never }
{
    if rival::conflict(sheet, k, t) {
        return counts_at(sheet, per_day, since, e, own, t, k);
    }
    lock_height::NEVER
}

// The soonest deadline of t, where `since` is its parent's block and e its parent's soonest one.
pub fn soonest_deadline(sheet: &Sheet, per_day: u16, since: u16, e: u32, t: usize) -> u32
    requires t_bound { t < count sheet.now.bytes }
    requires e_bound { e < 3000000000 }
    ensures { result ≡ deadline_over sheet.now.bytes per_day since e t }
{
    let own = lock::lock_at(sheet, per_day, e, t);
    let n = sheet.count();
    let mut best: u32 = lock_height::NEVER;
    for k in 0..n {
        best = lower(best, rival_at(sheet, per_day, since, e, own, t, k));
    }
    best
}
