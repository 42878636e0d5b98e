// What is read from the bytes of a report.
ghost use Rattle.std.specs.Prelude.{◌<◌, ◌≤◌, ◌*◌, ◌≡◌, length};
ghost use Rattle.laws.specs.Sets.{set_below};
ghost use Rattle.sheet.specs.Field.{count};
ghost use Rattle.readings.specs.Reported.{row_width, reported_confirmed, reported_holder};

use crate::holder;
use sheet::field::Sheet;
use sheet::set;
use slots::signatures;

// The bytes of a report for each transaction.
pub const ROW_WIDTH: usize = 18;
// The bytes of the longest report, of 32 transactions.
pub const REPORT_SIZE: usize = 576;

// Whether t is confirmed.
fn confirmed(report: &[u8], t: usize) -> bool
    requires t_bound { t < 32 }
    requires t_in_bounds { row_width * t < length report.now }
    ensures { result ≡ reported_confirmed report.now t }
{
    signatures::has(report[ROW_WIDTH * t], 2)
}

// The confirmed transactions.
fn confirmed_set(sheet: &Sheet, report: &[u8]) -> u32
    requires sheet_in_bounds { row_width * count sheet.now.bytes ≤ length report.now }
    ensures { result ≡ set_below (count sheet.now.bytes) (reported_confirmed report.now) }
{
    set::below(sheet.count(), |t| confirmed(report, t))
}

// The holder of a coin, 255 for nobody.
pub fn reported_holder(sheet: &Sheet, report: &[u8], coin: usize) -> u8
    requires sheet_in_bounds { row_width * count sheet.now.bytes ≤ length report.now }
    ensures { result ≡ reported_holder sheet.now.bytes report.now coin }
{
    let t = holder::coin_end(sheet, confirmed_set(sheet, report), coin);
    if t < 32 {
        return report[ROW_WIDTH * t + 1];
    }
    255
}
