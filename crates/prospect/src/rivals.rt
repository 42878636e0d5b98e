// The rivals of each transaction.
ghost use Rattle.std.specs.Prelude.{◌<◌, ◌≡◌};
ghost use Rattle.laws.specs.Sets.{set_below};
ghost use Rattle.sheet.specs.Field.{count};
ghost use Rattle.slots.specs.Conflict.{conflict};
ghost use Rattle.soonest.specs.Forms.Table.{Filled};

use sheet::field::Sheet;
use sheet::{set, table};
use soonest::rival;

// Those of t, itself included.
fn rivals_of(sheet: &Sheet, t: usize) -> u32
    requires t_bound { t < count sheet.now.bytes }
    ensures { result ≡ set_below (count sheet.now.bytes) (λ r. conflict sheet.now.bytes r t) }
{
    set::below(sheet.count(), |r| rival::conflict(sheet, r, t))
}

// Those of all, in a table.
pub fn rivals(sheet: &Sheet) -> [u32; 32]
    ensures { Filled (λ t v. v ≡ set_below (count sheet.now.bytes) (λ r. conflict sheet.now.bytes r t)) (count sheet.now.bytes) result }
{
    table::filled(sheet.count(), 0, |t| rivals_of(sheet, t))
}
