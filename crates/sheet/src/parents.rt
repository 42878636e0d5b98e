// The parents of a set of transactions, and of all.
ghost use Rattle.std.specs.Prelude.{◌<◌, true};
ghost use Rattle.laws.specs.Mask.{bit};
ghost use Rattle.sheet.specs.Field.{count};
ghost use Rattle.sheet.specs.Forms.Parents.{Parents, ParentAdded};

use crate::field::Sheet;
use crate::{field, set};

// All 32 transactions.
const ALL: u32 = 4294967295;

// The set `parents`, with k's parent too where k is in the set `members`.
fn with_parent(sheet: &Sheet, members: u32, parents: u32, k: usize) -> u32
    requires k_bound { k < count sheet.now.bytes }
    ensures { ParentAdded sheet.now.bytes (bit members) k parents result }
{
    if !set::has(members, k) {
        return parents;
    }
    let up = sheet.parent(k);
    if 32 <= up {
        return parents;
    }
    set::join(parents, true, up)
}

// The parents of the set's members.
pub fn parents_of(sheet: &Sheet, members: u32) -> u32
    ensures { Parents sheet.now.bytes (bit members) (count sheet.now.bytes) result }
{
    let mut parents: u32 = 0;
    for k in 0..sheet.count() {
        parents = with_parent(sheet, members, parents, k);
    }
    parents
}

// The parents of all transactions.
pub fn all_parents(sheet: &Sheet) -> u32
    ensures { Parents sheet.now.bytes (λ k. true) (count sheet.now.bytes) result }
{
    parents_of(sheet, ALL)
}
