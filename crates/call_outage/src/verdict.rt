// The verdict on a transaction.
ghost use Rattle.std.specs.Prelude.{◌<◌, ◌≤◌, ◌+◌, ◌≡◌, leb};
ghost use Rattle.laws.specs.Booleans.{pick};
ghost use Rattle.sheet.specs.Field.{count};
ghost use Rattle.sheet.specs.Checked.{Fit};
ghost use Rattle.call_outage.specs.Verdict.{is_covered, is_passed, exposed};
ghost use Rattle.call_outage.specs.Forms.Row.{safe_in, verdict_in};

use sheet::field::Sheet;
use sheet::set;
use steps::{View, parent};

// A part of the verdict, where its test holds.
fn part(on: bool, value: u8) -> u8
    ensures { (result ≡ pick on value 0) × (result ≤ value) }
{
    if on { value } else { 0 }
}

// Whether a height is no later than the outage's last block.
fn within(mined: u16, blocks: u32, height: u32) -> bool
    ensures { result ≡ leb height (mined + blocks) }
{
    let m = mined as u32;
    if height <= m {
        return true;
    }
    height - m <= blocks
}

// Whether the outage covers the deadline.
fn covered(mined: u16, blocks: u32, stealth: u8, deadline: u32) -> bool
    ensures { result ≡ is_covered mined blocks stealth deadline }
{
    if !within(mined, blocks, deadline) {
        return false;
    }
    if (mined as u32) < deadline {
        return true;
    }
    stealth == 1
}

// Whether the deadline is passed.
fn passed(mined: u16, deadline: u32) -> bool
    ensures { result ≡ is_passed mined deadline }
{
    deadline <= (mined as u32)
}

// The verdict by the deadline.
fn exposed(mined: u16, blocks: u32, stealth: u8, deadline: u32) -> u8
    ensures { result ≡ exposed mined blocks stealth deadline }
{
    let a = part(covered(mined, blocks, stealth, deadline), 4);
    let b = part(passed(mined, deadline), 8);
    a + b
}

// Whether t is safe in the pool.
fn safe(sheet: &Sheet, view: View, t: usize) -> bool
    requires t_bound { t < count sheet.now.bytes }
    ensures { result ≡ safe_in sheet.now.bytes view t }
{
    if set::has(view.pool, t) {
        return parent::parent_there(sheet, view.confirmed, t);
    }
    false
}

// The verdict on t, where `deadline` is its soonest one.
pub fn verdict(
    sheet: &Sheet,
    setup: &[u8],
    view: View,
    dead: bool,
    blocks: u32,
    t: usize,
    deadline: u32,
) -> u8
    requires fit { Fit sheet.now.bytes setup.now }
    requires t_bound { t < count sheet.now.bytes }
    ensures { result ≡ verdict_in sheet.now.bytes setup.now view dead blocks t deadline }
{
    if set::has(view.confirmed, t) {
        return 1;
    }
    if dead {
        return 1;
    }
    if safe(sheet, view, t) {
        return 2;
    }
    let stealth = sheet::setup::stealth(setup);
    exposed(view.mined, blocks, stealth, deadline)
}
