// What a bump throws out of the block.
ghost use Rattle.std.specs.Prelude.{◌<◌, ◌≡◌};
ghost use Rattle.laws.specs.Below.{any_below};
ghost use Rattle.laws.specs.Sets.{set_below};
ghost use Rattle.sheet.specs.Field.{count};
ghost use Rattle.sheet.specs.Checked.{Checked};
ghost use Rattle.settle.specs.Forms.Thrown.{throws_in, stays_in};

use sheet::field::Sheet;
use sheet::set;
use slots::{ancestry, conflict};

// Whether y is of the set `due` and its line has another rival of a member of g's.
fn throws(sheet: &Sheet, due: u32, g: usize, y: usize) -> bool
    requires checked { Checked sheet.now.bytes }
    requires g_bound { g < count sheet.now.bytes }
    requires y_bound { y < count sheet.now.bytes }
    ensures { result ≡ throws_in sheet.now.bytes due g y }
{
    if set::has(due, y) {
        let line = ancestry::line_of(sheet, y);
        let rivals = conflict::conflicts_of(sheet, line, true);
        return ancestry::in_ancestry(sheet, rivals, g);
    }
    false
}

// Whether one of the set does that.
fn is_thrown(sheet: &Sheet, due: u32, g: usize) -> bool
    requires checked { Checked sheet.now.bytes }
    requires g_bound { g < count sheet.now.bytes }
    ensures { result ≡ any_below (count sheet.now.bytes) (throws_in sheet.now.bytes due g) }
{
    (0..sheet.count()).any(|y| throws(sheet, due, g, y))
}

// Those of the set `entries` that none of the set `due` throws out.
pub fn staying(sheet: &Sheet, entries: u32, due: u32) -> u32
    requires { Checked sheet.now.bytes }
    ensures { result ≡ set_below (count sheet.now.bytes) (stays_in sheet.now.bytes entries due) }
{
    set::below(
        sheet.count(),
        |g| set::has(entries, g) && !is_thrown(sheet, due, g),
    )
}
