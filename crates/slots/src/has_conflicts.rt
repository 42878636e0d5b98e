// Whether a set has conflicts: some member has a rival but itself (document 01: rivals). Else nobody has another rival in it.
ghost use Rattle.std.specs.Prelude.{◌<◌, ◌≡◌, true};
ghost use Rattle.laws.specs.Mask.{bit};
ghost use Rattle.sheet.specs.Field.{count};
ghost use Rattle.sheet.specs.Checked.{Checked};
ghost use Rattle.slots.specs.Conflict.{other_conflict_in};
ghost use Rattle.slots.specs.Forms.HasConflicts.{has_conflicts_in};

use crate::next;
use sheet::field::Sheet;

// Whether t has a rival but itself. A child comes after its parent; after an opening's 255 comes nobody.
fn has_rival(sheet: &Sheet, t: usize) -> bool
    requires checked { Checked sheet.now.bytes }
    requires t_bound { t < count sheet.now.bytes }
    ensures { result ≡ other_conflict_in sheet.now.bytes (λ k. true) t }
{
    let n = sheet.count();
    let up = sheet.parent(t);
    (up + 1..n).any(|k| k != t && sheet.parent(k) == up)
}

// Whether some member of the set has a rival but itself.
pub fn has_conflicts(sheet: &Sheet, members: u32) -> bool
    requires { Checked sheet.now.bytes }
    ensures { result ≡ has_conflicts_in sheet.now.bytes (bit members) }
{
    next::members(members, sheet.count()).any(|k| has_rival(sheet, k))
}
