// Who enters the block by a bump, and what it makes of a slot: kind 7.
ghost use Rattle.std.specs.Prelude.{◌<◌, ◌≡◌};
ghost use Rattle.laws.specs.Sets.{set_below};
ghost use Rattle.sheet.specs.Field.{count};
ghost use Rattle.sheet.specs.Checked.{Checked};
ghost use Rattle.slots.specs.Forms.Line.{line_set};
ghost use Rattle.steps.specs.Forms.Blocks.{displaced_in, bumped_slot, enters_in};

use crate::View;
use sheet::field::Sheet;
use sheet::set;
use slots::{Slot, ancestry, conflict};

// What a bump makes of one slot: it enters the block, or leaves it, or stays as it is.
pub fn bumped_slot(sheet: &Sheet, entering: u32, leaving: u32, t: usize, x: Slot) -> Slot
    requires t_bound { t < count sheet.now.bytes }
    ensures { result ≡ bumped_slot sheet.now.bytes entering leaving t x }
{
    if set::has(entering, t) {
        return x.with_block(x.pool);
    }
    if x.block == 0 {
        return x;
    }
    if ancestry::in_ancestry(sheet, leaving, t) {
        return x.with_block(0);
    }
    x
}

// Whether k waits outside the block and is of a line.
fn enters_in(view: View, line: u32, k: usize) -> bool
    requires { k < 32 }
    ensures { result ≡ enters_in view line k }
{
    if !set::has(view.pool, k) {
        return false;
    }
    if set::has(view.block, k) {
        return false;
    }
    set::has(line, k)
}

// Those of t's line that wait outside the block.
pub fn entering(sheet: &Sheet, view: View, t: usize) -> u32
    requires t_bound { t < count sheet.now.bytes }
    ensures { result ≡ set_below (count sheet.now.bytes) (enters_in view (line_set sheet.now.bytes t)) }
{
    let line = ancestry::line_of(sheet, t);
    set::below(sheet.count(), |k| enters_in(view, line, k))
}

// Those with a rival among the entering. None is asked for while the block is empty, since there nobody leaves it.
pub fn displaced(sheet: &Sheet, view: View, entering: u32) -> u32
    requires { Checked sheet.now.bytes }
    ensures { result ≡ displaced_in sheet.now.bytes view entering }
{
    if view.block == 0 {
        return 0;
    }
    conflict::conflicts_of(sheet, entering, false)
}
