// What the parent of each transaction tells.
ghost use Rattle.std.specs.Prelude.{◌<◌, ◌≡◌, true, not, ◌&&◌, ltb};
ghost use Rattle.laws.specs.Booleans.{pick};
ghost use Rattle.laws.specs.Mask.{bit};
ghost use Rattle.laws.specs.Sets.{joined, set_below};
ghost use Rattle.sheet.specs.Field.{count, parent};
ghost use Rattle.slots.specs.Ancestry.{has_parent};
ghost use Rattle.soonest.specs.Forms.Table.{Filled};

use sheet::field::Sheet;
use sheet::{set, table};
use steps::parent;

// The openings, and those whose parent is confirmed.
pub fn fixed(sheet: &Sheet, confirmed: u32) -> u32
    ensures { result ≡ set_below (count sheet.now.bytes) (has_parent sheet.now.bytes (bit confirmed)) }
{
    set::below(sheet.count(), |t| parent::parent_there(sheet, confirmed, t))
}

// Those that are not of these, and whose parent can come.
pub fn running(sheet: &Sheet, fixed: u32, can: u32) -> u32
    ensures { result ≡ set_below (count sheet.now.bytes) (λ t. not (bit fixed t) && has_parent sheet.now.bytes (bit can) t) }
{
    set::below(
        sheet.count(),
        |t| !set::has(fixed, t) && parent::parent_there(sheet, can, t),
    )
}

// The parent of t as a set, empty for an opening.
fn parent_set(sheet: &Sheet, t: usize) -> u32
    requires t_bound { t < count sheet.now.bytes }
    ensures { result ≡ pick (ltb (parent sheet.now.bytes t) t) (joined 0 true (parent sheet.now.bytes t)) 0 }
{
    let up = sheet.parent(t);
    if up < t {
        return set::join(0, true, up);
    }
    0
}

// The parents, in a table.
pub fn parent_sets(sheet: &Sheet) -> [u32; 32]
    ensures { Filled (λ t v. v ≡ pick (ltb (parent sheet.now.bytes t) t) (joined 0 true (parent sheet.now.bytes t)) 0) (count sheet.now.bytes) result }
{
    table::filled(sheet.count(), 0, |t| parent_set(sheet, t))
}
