// Ancestry (document 01: line): recursion up the sheet, where a parent is always a lower number.
ghost use Rattle.std.specs.Prelude.{◌<◌, ◌≡◌};
ghost use Rattle.laws.specs.Mask.{bit};
ghost use Rattle.sheet.specs.Field.{count};
ghost use Rattle.slots.specs.Ancestry.{in_ancestry};
ghost use Rattle.slots.specs.Forms.Line.{line_set};

use sheet::field::Sheet;
use sheet::set;

// Whether a transaction of t's line is in the set.
pub fn in_ancestry(sheet: &Sheet, members: u32, t: usize) -> bool
    requires t_bound { t < count sheet.now.bytes }
    ensures { result ≡ in_ancestry sheet.now.bytes (bit members) t }
{
    if members == 0 {
        return false;
    }
    if set::has(members, t) {
        return true;
    }
    let up = sheet.parent(t);
    if up < t {
        in_ancestry(sheet, members, up)
    } else {
        false
    }
}

// The line of t: itself and the line of its parent.
pub fn line_of(sheet: &Sheet, t: usize) -> u32
    requires t_bound { t < count sheet.now.bytes }
    ensures { result ≡ line_set sheet.now.bytes t }
{
    let above = sheet.parent(t);
    if above < t {
        return set::join(line_of(sheet, above), true, t);
    }
    set::join(0, true, t)
}
