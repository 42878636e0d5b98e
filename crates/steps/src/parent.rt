// The parent of a transaction: whether it is there, and where its block is read.
ghost use Rattle.std.specs.Prelude.{◌<◌, ◌≡◌};
ghost use Rattle.laws.specs.Mask.{bit};
ghost use Rattle.sheet.specs.Field.{count};
ghost use Rattle.slots.specs.Ancestry.{has_parent};
ghost use Rattle.steps.specs.Forms.Parent.{slot_above, block_above};

use sheet::field::Sheet;
use sheet::set;

// Whether the set has the parent of t; an opening has none to ask for.
pub fn parent_there(sheet: &Sheet, members: u32, t: usize) -> bool
    requires t_bound { t < count sheet.now.bytes }
    ensures { result ≡ has_parent sheet.now.bytes (bit members) t }
{
    if sheet.opening(t) {
        return true;
    }
    let up = sheet.parent(t);
    if up < 32 {
        return set::has(members, up);
    }
    false
}

// The place of the parent's slot; for an opening, which has none, that of the first.
pub fn slot_above(sheet: &Sheet, t: usize) -> usize
    requires t_bound { t < count sheet.now.bytes }
    ensures { (result ≡ slot_above sheet.now.bytes t) × (result < 32) }
{
    let up = sheet.parent(t);
    if up < 32 {
        return up;
    }
    0
}

// The parent's block, where `height` stands at that place; 0 for an opening.
pub fn block_above(sheet: &Sheet, t: usize, height: u16) -> u16
    requires t_bound { t < count sheet.now.bytes }
    ensures { result ≡ block_above sheet.now.bytes t height }
{
    if sheet.parent(t) < 32 {
        return height;
    }
    0
}
