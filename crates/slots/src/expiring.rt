// The transactions that can have a deadline.
ghost use Rattle.std.specs.Prelude.{◌<◌, ◌≡◌};
ghost use Rattle.laws.specs.Sets.{set_below};
ghost use Rattle.sheet.specs.Field.{count};
ghost use Rattle.sheet.specs.Checked.{Checked};
ghost use Rattle.slots.specs.Forms.Height.{Height};
ghost use Rattle.slots.specs.Forms.Expiring.{has_lock, expiring_set, deadline_by};

use crate::{conflict, deadline, lock_height};
use sheet::field::Sheet;
use sheet::set;

// The transactions that have a lock.
fn locked(sheet: &Sheet) -> u32
    ensures { result ≡ set_below (count sheet.now.bytes) (has_lock sheet.now.bytes) }
{
    set::below(sheet.count(), |k| sheet.lock_type(k) != 0)
}

// The transactions that can have a deadline: those of which some other rival has a lock.
pub fn expiring(sheet: &Sheet) -> u32
    requires { Checked sheet.now.bytes }
    ensures { result ≡ expiring_set sheet.now.bytes }
{
    conflict::conflicts_of(sheet, locked(sheet), true)
}

// The deadline of t, where `since` is its parent's block and `expiring` are those that can have one.
pub fn deadline_by(sheet: &Sheet, per_day: u16, expiring: u32, since: u16, t: usize) -> u32
    requires t_bound { t < count sheet.now.bytes }
    ensures { Height (deadline_by sheet.now.bytes per_day expiring since t) result }
{
    if !set::has(expiring, t) {
        return lock_height::NEVER;
    }
    deadline::deadline(sheet, per_day, since, t)
}
