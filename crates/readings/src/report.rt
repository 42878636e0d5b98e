// The row of a report.
ghost use Rattle.std.specs.Prelude.{◌<◌, ◌≤◌, ◌≡◌};
ghost use Rattle.laws.specs.Booleans.{pick};
ghost use Rattle.sheet.specs.Field.{count};
ghost use Rattle.slots.specs.Slot.{entry_to};
ghost use Rattle.readings.specs.Forms.Report.{dead_in, status_in, payee_in, row_in};

use crate::Row;
use sheet::field::Sheet;
use sheet::set;
use slots::{Slot, ancestry, deadline, lock_height};
use steps::View;

// A part of the status, where its test holds.
fn part(on: bool, value: u8) -> u8
    ensures { (result ≡ pick on value 0) × (result ≤ value) }
{
    if on { value } else { 0 }
}

// Whether t is dead, where `conflicted` has those whose other rival is confirmed.
pub fn dead_in(sheet: &Sheet, confirmed: u32, conflicted: u32, t: usize) -> bool
    requires t_bound { t < count sheet.now.bytes }
    ensures { result ≡ dead_in sheet.now.bytes confirmed conflicted t }
{
    if set::has(confirmed, t) {
        return false;
    }
    ancestry::in_ancestry(sheet, conflicted, t)
}

// The status of t.
pub fn status_in(sheet: &Sheet, view: View, conflicted: u32, t: usize) -> u8
    requires t_bound { t < count sheet.now.bytes }
    ensures { result ≡ status_in sheet.now.bytes view conflicted t }
{
    let pool = part(set::has(view.pool, t), 1);
    let block = part(set::has(view.block, t), 2);
    let confirmed = part(set::has(view.confirmed, t), 4);
    let dead = part(dead_in(sheet, view.confirmed, conflicted, t), 8);
    pool + block + confirmed + dead
}

// The destination that an entry names.
pub fn entry_to(entry: u8) -> u8
    ensures { result ≡ entry_to entry }
{
    if entry == 0 {
        return 0;
    }
    entry - 1
}

// The payee of the transaction whose slot is x, 255 while it is unconfirmed.
pub fn payee_of(x: Slot) -> u8
    ensures { result ≡ payee_in x }
{
    if 0 < x.height {
        return entry_to(x.confirmed);
    }
    255
}

// The row of t, where x is its slot and `since` its parent's block.
pub fn row(
    sheet: &Sheet,
    per_day: u16,
    view: View,
    conflicted: u32,
    x: Slot,
    since: u16,
    t: usize,
) -> Row
    requires t_bound { t < count sheet.now.bytes }
    ensures { result ≡ row_in sheet.now.bytes per_day view conflicted x since t }
{
    Row {
        block: u32::from(x.height),
        lock: lock_height::lock_height(sheet, per_day, since, t),
        deadline: deadline::deadline(sheet, per_day, since, t),
        status: status_in(sheet, view, conflicted, t),
        payee: payee_of(x),
    }
}
