// The tests of a block list: 29 over the whole list, then 30, then 31.
ghost use Rattle.std.specs.Prelude.{◌+◌, ◌≤◌, ◌<◌, ◌≡◌, ◌&&◌, length};
ghost use Rattle.laws.specs.Failing.{first_failing};
ghost use Rattle.sheet.specs.Refusal.{refused};
ghost use Rattle.sheet.specs.Checked.{Fit};
ghost use Rattle.ledger.specs.Entry.{before};
ghost use Rattle.call_blocks.specs.BlockList.{list_entries, entry_named, fields_named, block_within, entries_rise, list_tests};
ghost use Rattle.call_blocks.specs.Forms.Listed.{listed_at, entry_of};

use crate::{Listed, kept};
use sheet::field::Sheet;
use sheet::little::u16_at;
use sheet::refusal::{Refusal, require};
use steps::decode;

// The last block that a list may have.
const LIMIT: u16 = 10000;

// The entry that starts at byte i.
pub fn listed_at(list: &[u8], i: usize) -> Listed
    requires { i + 4 ≤ length list.now }
    ensures { result ≡ listed_at list.now i }
{
    Listed {
        transaction: list[i],
        destination: list[i + 1],
        block: u16_at(list, i + 2),
    }
}

// Whether an entry's transaction is of the sheet, and goes to its destination.
fn entry_named(sheet: &Sheet, entry: Listed) -> bool
    ensures { result ≡ entry_named sheet.now.bytes (entry_of entry) }
{
    let t = usize::from(entry.transaction);
    if t < sheet.count() {
        return decode::shares_to(sheet, t, entry.destination);
    }
    false
}

// 29: whole entries, each with a transaction of the sheet and a destination of it.
fn fields_named(sheet: &Sheet, list: &[u8]) -> bool
    ensures { result ≡ fields_named sheet.now.bytes list.now }
{
    if list.len() % 4 != 0 {
        return false;
    }
    (0..list.len() / 4).all(|k| entry_named(sheet, listed_at(list, 4 * k)))
}

// Whether an entry's block is one of 1 to 10,000.
fn block_within(entry: Listed) -> bool
    ensures { result ≡ block_within (entry_of entry) }
{
    1 <= entry.block && entry.block <= LIMIT
}

// Whether an entry stands before another: by block and then transaction.
fn before(a: Listed, b: Listed) -> bool
    ensures { result ≡ before (entry_of a) (entry_of b) }
{
    if a.block < b.block {
        return true;
    }
    if a.block == b.block {
        return a.transaction < b.transaction;
    }
    false
}

// Whether an entry stands in such a block, behind the last one.
fn rises(last: Listed, entry: Listed) -> bool
    ensures { result ≡ (block_within (entry_of entry) && before (entry_of last) (entry_of entry)) }
{
    if block_within(entry) {
        return before(last, entry);
    }
    false
}

// 30: the entries rise, and stand in blocks of 1 to 10,000.
fn entries_rise(list: &[u8]) -> bool
    ensures { result ≡ entries_rise (list_entries list.now) }
{
    let mut last = Listed {
        transaction: 0,
        destination: 0,
        block: 0,
    };
    for k in 0..list.len() / 4 {
        let entry = listed_at(list, 4 * k);
        if !rises(last, entry) {
            return false;
        }
        last = entry;
    }
    true
}

// The first of 29, 30 and 31 that fails.
pub fn list_refusal(sheet: &Sheet, setup: &[u8], list: &[u8]) -> Result<(), Refusal>
    requires { Fit sheet.now.bytes setup.now }
    ensures { refused result ≡ first_failing (list_tests sheet.now.bytes setup.now list.now) }
{
    require(fields_named(sheet, list), Refusal::BlocksField)?;
    require(entries_rise(list), Refusal::BlocksOrder)?;
    require(
        kept::ledger_accepts(sheet, sheet::setup::per_day(setup), list),
        Refusal::BlocksLedger,
    )
}
