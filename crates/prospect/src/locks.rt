// The lock height of each transaction.
ghost use Rattle.std.specs.Prelude.{◌<◌, ◌≡◌, ltb};
ghost use Rattle.laws.specs.Booleans.{pick};
ghost use Rattle.sheet.specs.Field.{count};
ghost use Rattle.sheet.specs.Checked.{Fit};
ghost use Rattle.soonest.specs.Forms.Table.{Filled};
ghost use Rattle.prospect.specs.Forms.Marks.{OwnLock};

use position::Position;
use sheet::field::Sheet;
use soonest::{block, lock, table};

// The parent's block where it is confirmed, else its soonest one.
fn block_or(since: u16, soonest: u32) -> u32
    ensures { result ≡ pick (ltb 0 since) since soonest }
{
    if 0 < since {
        return u32::from(since);
    }
    soonest
}

// The lock heights with the parent in that block, in a table.
pub fn locks(position: Position, sheet: &Sheet, setup: &[u8]) -> [u32; 32]
    requires { Fit sheet.now.bytes setup.now }
    ensures { Filled (OwnLock sheet.now.bytes setup.now position) (count sheet.now.bytes) result }
{
    let per_day = sheet::setup::per_day(setup);
    let soonest = block::soonest_blocks(position, sheet, per_day);
    let mut table = [0u32; 32];
    for t in 0..sheet.count() {
        let since = position.since(sheet, t);
        let e = block_or(since, table::above(soonest, sheet, t));
        table[t] = lock::lock_at(sheet, per_day, e, t);
    }
    table
}
