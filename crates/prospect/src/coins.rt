// The coin of each transaction, and those of other coins.
ghost use Rattle.std.specs.Prelude.{◌<◌, ◌≡◌, not, eqb, get_or};
ghost use Rattle.laws.specs.Sets.{set_below};
ghost use Rattle.sheet.specs.Field.{count};
ghost use Rattle.ledger.specs.Coin.{coin_of};
ghost use Rattle.soonest.specs.Forms.Table.{Filled};

use readings::holder;
use sheet::field::Sheet;
use sheet::{set, table};

// The coins, in a table.
pub fn coins(sheet: &Sheet) -> [usize; 32]
    ensures { Filled (λ t v. v ≡ coin_of sheet.now.bytes t) (count sheet.now.bytes) result }
{
    table::filled(sheet.count(), 0, |t| holder::coin_of(sheet, t))
}

// Those of other coins than one, by the table.
fn others(coins: [usize; 32], sheet: &Sheet, coin: usize) -> u32
    ensures { result ≡ set_below (count sheet.now.bytes) (λ k. not (eqb (get_or coins k 0) coin)) }
{
    set::below(sheet.count(), |k| coins[k] != coin)
}

// Those of other coins than each, in a table.
pub fn foreign(sheet: &Sheet) -> [u32; 32]
    ensures { Filled (λ t v. v ≡ set_below (count sheet.now.bytes) (λ k. not (eqb (coin_of sheet.now.bytes k) (coin_of sheet.now.bytes t)))) (count sheet.now.bytes) result }
{
    let coins = coins(sheet);
    table::filled(sheet.count(), 0, |t| others(coins, sheet, coins[t]))
}
