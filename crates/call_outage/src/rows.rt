// The rows of all transactions.
ghost use Rattle.std.specs.Prelude.{◌<◌, ◌*◌, ◌≤◌, ◌≡◌, length};
ghost use Rattle.laws.specs.Booleans.{pick};
ghost use Rattle.laws.specs.Over.{over};
ghost use Rattle.sheet.specs.Field.{count};
ghost use Rattle.sheet.specs.LockHeight.{never};
ghost use Rattle.sheet.specs.Checked.{Fit};
ghost use Rattle.soonest.specs.Forms.Table.{table_above};
ghost use Rattle.call_outage.specs.Verdict.{outage_bytes};
ghost use Rattle.call_outage.specs.Forms.Row.{row_in};

use crate::{payees, row, verdict};
use position::Position;
use readings::report;
use sheet::field::Sheet;
use slots::{conflict, lock_height};
use soonest::{block, deadline, table};
use steps::View;

// The soonest block, never for a dead one.
fn block_from(dead: bool, soonest: u32) -> u32
    ensures { result ≡ pick dead never soonest }
{
    if dead {
        return lock_height::NEVER;
    }
    soonest
}

// The row of t, at the front of the buffer.
fn write_at(
    sheet: &Sheet,
    setup: &[u8],
    view: View,
    conflicted: u32,
    soonest: [u32; 32],
    lines: [u32; 32],
    since: u16,
    blocks: u32,
    t: usize,
    out: &mut [u8],
)
    requires fit { Fit sheet.now.bytes setup.now }
    requires t_bound { t < count sheet.now.bytes }
    requires t_bound_2 { table_above sheet.now.bytes soonest t < 3000000000 }
    requires in_bounds { 10 ≤ length out.old }
    ensures { out.new ≡ over (row_in sheet.now.bytes setup.now view conflicted soonest lines since blocks t) out.old }
{
    let per_day = sheet::setup::per_day(setup);
    let dead = report::dead_in(sheet, view.confirmed, conflicted, t);
    let from = block_from(dead, soonest[t]);
    let e = table::above(soonest, sheet, t);
    let until = deadline::soonest_deadline(sheet, per_day, since, e, t);
    let judged = verdict::verdict(sheet, setup, view, dead, blocks, t, until);
    let paid = payees::payees_below(sheet, lines, t);
    row::write_row(out, judged, paid, from, until);
}

// The rows, at the front of the buffer. What they are made of is read once: the view, whose other rival is confirmed, soonest blocks, lines.
pub fn write_rows(position: Position, sheet: &Sheet, setup: &[u8], blocks: u32, out: &mut [u8])
    requires fit { Fit sheet.now.bytes setup.now }
    requires sheet_in_bounds { 10 * count sheet.now.bytes ≤ length out.old }
    ensures { out.new ≡ over (outage_bytes sheet.now.bytes setup.now position blocks) out.old }
{
    let per_day = sheet::setup::per_day(setup);
    let view = position.view(sheet);
    let conflicted = conflict::conflicts_of(sheet, view.confirmed, true);
    let soonest = block::soonest_blocks(position, sheet, per_day);
    let lines = payees::lines(sheet);
    for t in 0..sheet.count() {
        let since = position.since(sheet, t);
        write_at(
            sheet,
            setup,
            view,
            conflicted,
            soonest,
            lines,
            since,
            blocks,
            t,
            &mut out[10 * t..],
        );
    }
}
