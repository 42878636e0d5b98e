// The holders of all coins: at each opening's number the coin's holder, 255 for nobody.
// holders_in and holders_by are one call of table::filled each: a function over both would be that call again.
ghost use Rattle.std.specs.Prelude.{◌*◌, ◌≤◌, ◌≡◌, length};
ghost use Rattle.sheet.specs.Field.{count};
ghost use Rattle.sheet.specs.Checked.{Checked};
ghost use Rattle.readings.specs.Reported.{row_width, reported_holder};
ghost use Rattle.position.specs.Holder.{holder_in};
ghost use Rattle.claim_history.specs.Promise.{holders, reported_holders, rows};

use position::Position;
use queries::holder;
use readings::reported;
use sheet::field::Sheet;
use sheet::table;

// "read .. from the position".
pub fn holders_in(position: Position, sheet: &Sheet) -> [u8; 32]
    requires { Checked sheet.now.bytes }
    ensures { result ≡ holders sheet.now.bytes (holder_in sheet.now.bytes position) }
{
    table::filled(sheet.count(), 255, |coin| {
        holder::holder_in(position, sheet, coin)
    })
}

// The same from the bytes of a report.
fn holders_by(sheet: &Sheet, report: &[u8]) -> [u8; 32]
    requires sheet_in_bounds { row_width * count sheet.now.bytes ≤ length report.now }
    ensures { result ≡ holders sheet.now.bytes (reported_holder sheet.now.bytes report.now) }
{
    table::filled(sheet.count(), 255, |coin| {
        reported::reported_holder(sheet, report, coin)
    })
}

// ".. and from the report of the accepted steps where that report answers 0", at the front of the buffer; else nobody.
pub fn reported_holders(answer: u32, sheet: &Sheet, report: &[u8]) -> [u8; 32]
    requires sheet_in_bounds { row_width * count sheet.now.bytes ≤ length report.now }
    ensures { result ≡ reported_holders answer sheet.now.bytes (rows sheet.now.bytes report.now) }
{
    if answer != 0 {
        return [255u8; 32];
    }
    let size = reported::ROW_WIDTH * sheet.count();
    holders_by(sheet, &report[..size])
}
