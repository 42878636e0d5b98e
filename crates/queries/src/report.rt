// The report of a position.
ghost use Rattle.std.specs.Prelude.{◌*◌, ◌≤◌, ◌≡◌, length};
ghost use Rattle.laws.specs.Over.{over};
ghost use Rattle.sheet.specs.Field.{count};
ghost use Rattle.sheet.specs.Checked.{Fit};
ghost use Rattle.readings.specs.Reported.{row_width};
ghost use Rattle.position.specs.Forms.View.{view_below};
ghost use Rattle.position.specs.Report.{report_bytes};

use output::row;
use position::Position;
use readings::{report, reported};
use sheet::field::Sheet;
use slots::conflict;
use steps::View;

// The rows of the report of a position and its counts, at the front of the buffer.
pub fn write_report(
    position: Position,
    view: View,
    opened: [u32; 32],
    sheet: &Sheet,
    setup: &[u8],
    out: &mut [u8],
)
    requires fit { Fit sheet.now.bytes setup.now }
    requires view_value { view ≡ view_below sheet.now.bytes (count sheet.now.bytes) position }
    requires sheet_in_bounds { row_width * count sheet.now.bytes ≤ length out.old }
    ensures { out.new ≡ over (report_bytes sheet.now.bytes setup.now position opened) out.old }
{
    let n = sheet.count();
    let per_day = sheet::setup::per_day(setup);
    let conflicted = conflict::conflicts_of(sheet, view.confirmed, true);
    let mut at: usize = 0;
    for t in 0..n {
        let x = position.slots[t];
        let since = position.since(sheet, t);
        let r = report::row(sheet, per_day, view, conflicted, x, since, t);
        row::write_row(
            &mut out[at..],
            r.status,
            r.payee,
            r.block,
            r.lock,
            r.deadline,
            opened[t],
        );
        at += reported::ROW_WIDTH;
    }
}
