// The plain ledger over a block list: what is kept for each coin, in an array by value.
ghost use Rattle.std.specs.Prelude.{◌<◌, ◌≡◌, true};
ghost use Rattle.std.proofs.Math.Option.{none, some};
ghost use Rattle.sheet.specs.Field.{count};
ghost use Rattle.sheet.specs.Checked.{Checked};
ghost use Rattle.ledger.specs.Ledger.{fits, ledger};
ghost use Rattle.call_blocks.specs.BlockList.{list_entries, fields_named};
ghost use Rattle.call_blocks.specs.Forms.Listed.{entry_of, last_of};

use crate::Listed;
use crate::block_list::listed_at;
use sheet::field::Sheet;
use slots::lock_height::lock_height;

// Whether an entry opens its coin, for which none is kept.
fn opens(sheet: &Sheet, per_day: u16, entry: Listed) -> bool
    requires checked { Checked sheet.now.bytes }
    requires transaction_bound { entry.transaction < count sheet.now.bytes }
    ensures { result ≡ fits sheet.now.bytes per_day none (entry_of entry) }
{
    let t = usize::from(entry.transaction);
    if sheet.opening(t) {
        return lock_height(sheet, per_day, 0, t) < u32::from(entry.block);
    }
    false
}

// Whether an entry spends the last one kept for its coin.
fn spends(sheet: &Sheet, per_day: u16, last: Listed, entry: Listed) -> bool
    requires checked { Checked sheet.now.bytes }
    requires transaction_bound { entry.transaction < count sheet.now.bytes }
    requires block_nonzero { 0 < last.block }
    ensures { result ≡ fits sheet.now.bytes per_day (some (entry_of last)) (entry_of entry) }
{
    let t = usize::from(entry.transaction);
    if sheet.opening(t) {
        return false;
    }
    if usize::from(last.transaction) == sheet.parent(t) {
        return lock_height(sheet, per_day, last.block, t) < u32::from(entry.block);
    }
    false
}

// Whether an entry fits what is kept for its coin.
fn fits(sheet: &Sheet, per_day: u16, last: Listed, entry: Listed) -> bool
    requires checked { Checked sheet.now.bytes }
    requires transaction_bound { entry.transaction < count sheet.now.bytes }
    ensures { result ≡ fits sheet.now.bytes per_day (last_of last) (entry_of entry) }
{
    if last.block == 0 {
        return opens(sheet, per_day, entry);
    }
    spends(sheet, per_day, last, entry)
}

// 31: whether the ledger takes the list, whose fields are right. An entry in block 0 is none.
pub fn ledger_accepts(sheet: &Sheet, per_day: u16, list: &[u8]) -> bool
    requires checked { Checked sheet.now.bytes }
    requires list_value { fields_named sheet.now.bytes list.now ≡ true }
    ensures { result ≡ (ledger sheet.now.bytes per_day (list_entries list.now)).accepts }
{
    let none = Listed {
        transaction: 0,
        destination: 0,
        block: 0,
    };
    let mut kept = [none; 32];
    for k in 0..list.len() / 4 {
        let entry = listed_at(list, 4 * k);
        let coin = readings::holder::coin_of(sheet, usize::from(entry.transaction));
        let last = kept[coin];
        if !fits(sheet, per_day, last, entry) {
            return false;
        }
        kept[coin] = entry;
    }
    true
}
