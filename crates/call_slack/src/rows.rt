// The rows of all parties.
ghost use Rattle.std.specs.Prelude.{◌*◌, ◌≤◌, ◌<◌, ◌≡◌, length};
ghost use Rattle.laws.specs.Over.{over};
ghost use Rattle.sheet.specs.Field.{count, parties};
ghost use Rattle.sheet.specs.Checked.{Fit};
ghost use Rattle.slack.specs.Counted.{none};
ghost use Rattle.call_slack.specs.Row.{row_of, slack_row, slack_bytes};

use crate::both::found_at;
use crate::due::due;
use crate::row::write_row;
use kept::counted::NOBODY;
use position::Position;
use prospect::pool::destination_of;
use sheet::field::Sheet;

// The row of a party with this slack that counts on t, at the front of the buffer.
fn write_counted(
    position: Position,
    sheet: &Sheet,
    setup: &[u8],
    party: u8,
    blocks: u32,
    t: u8,
    out: &mut [u8],
)
    requires fit { Fit sheet.now.bytes setup.now }
    requires in_bounds { 8 ≤ length out.old }
    requires t_bound { t < count sheet.now.bytes }
    ensures { out.new ≡ over (row_of sheet.now.bytes setup.now position party blocks t) out.old }
{
    let to = destination_of(sheet, party, t as usize);
    let due = due(position, sheet, setup, party, blocks, t, to);
    write_row(out, blocks, t, to, due);
}

// The row of a party with this slack that counts on t, or on nothing, at the front of the buffer.
fn write_found(
    position: Position,
    sheet: &Sheet,
    setup: &[u8],
    party: u8,
    blocks: u32,
    t: u8,
    out: &mut [u8],
)
    requires fit { Fit sheet.now.bytes setup.now }
    requires in_bounds { 8 ≤ length out.old }
    requires t_bound { (t ≡ none → ⊥) → t < count sheet.now.bytes }
    ensures { out.new ≡ over (row_of sheet.now.bytes setup.now position party blocks t) out.old }
{
    if t == NOBODY {
        write_row(out, blocks, NOBODY, NOBODY, 0);
        return;
    }
    write_counted(position, sheet, setup, party, blocks, t, out);
}

// The row of a party, at the front of the buffer.
fn write_at(position: Position, sheet: &Sheet, setup: &[u8], party: u8, out: &mut [u8])
    requires fit { Fit sheet.now.bytes setup.now }
    requires mined_bound { position.mined < 65535 }
    requires in_bounds { 8 ≤ length out.old }
    ensures { out.new ≡ over (slack_row sheet.now.bytes setup.now position party) out.old }
{
    let found = found_at(position, sheet, setup, party);
    write_found(position, sheet, setup, party, found.blocks, found.t, out);
}

// The rows, at the front of the buffer.
pub fn write_rows(position: Position, sheet: &Sheet, setup: &[u8], out: &mut [u8])
    requires fit { Fit sheet.now.bytes setup.now }
    requires mined_bound { position.mined < 65535 }
    requires sheet_in_bounds { 8 * parties sheet.now.bytes ≤ length out.old }
    ensures { out.new ≡ over (slack_bytes sheet.now.bytes setup.now position) out.old }
{
    for k in 0..sheet.parties() {
        let party = sheet::field::party_at(k);
        write_at(position, sheet, setup, party, &mut out[8 * k..]);
    }
}
