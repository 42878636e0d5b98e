// What a mined block makes of a slot: kind 6.
ghost use Rattle.std.specs.Prelude.{◌<◌, ◌≡◌};
ghost use Rattle.sheet.specs.Field.{count};
ghost use Rattle.sheet.specs.Checked.{Checked};
ghost use Rattle.steps.specs.Mined.{confirm_entry};
ghost use Rattle.steps.specs.Forms.Blocks.{conflicted_in, affected_in, mined_slot};

use crate::View;
use sheet::field::Sheet;
use sheet::set;
use slots::{Slot, ancestry, conflict, has_conflicts, signatures};

// Those with another rival in the block. None is asked for where the whole pool is in the block, or no entry has a rival.
pub fn conflicted(sheet: &Sheet, view: View) -> u32
    requires { Checked sheet.now.bytes }
    ensures { result ≡ conflicted_in sheet.now.bytes view }
{
    if view.pool | view.block == view.block {
        return 0;
    }
    if !has_conflicts::has_conflicts(sheet, view.block) {
        return 0;
    }
    conflict::conflicts_of(sheet, view.block, true)
}

// The slots that a mined block may change: its entries', and where somebody is conflicted those of what waits too.
pub fn affected(view: View, leaving: u32) -> u32
    ensures { result ≡ affected_in view leaving }
{
    if leaving == 0 {
        return view.block;
    }
    view.pool | view.block
}

// A block entry is confirmed, and what it exposes is shared.
fn confirm_entry(sheet: &Sheet, block: u16, t: usize, x: Slot) -> Slot
    requires t_bound { t < count sheet.now.bytes }
    ensures { result ≡ confirm_entry sheet.now.bytes block t x }
{
    let entry = x.block;
    if entry == 0 {
        return x;
    }
    let mask = signatures::exposed_mask(sheet, t);
    let shared = x.with_shared(entry - 1, mask);
    let confirmed = shared.with_confirmed(entry, block);
    confirmed.with_block(0)
}

// What a mined block makes of one slot: who enters the chain leaves the pool, and so does who conflicts with another there.
pub fn mined_slot(sheet: &Sheet, block: u16, entering: u32, leaving: u32, t: usize, x: Slot) -> Slot
    requires t_bound { t < count sheet.now.bytes }
    ensures { result ≡ mined_slot sheet.now.bytes block entering leaving t x }
{
    let y = confirm_entry(sheet, block, t, x);
    if y.pool == 0 {
        return y;
    }
    if set::has(entering, t) {
        return y.with_pool(0);
    }
    if ancestry::in_ancestry(sheet, leaving, t) {
        return y.with_pool(0);
    }
    y
}
