// Who holds a coin, over the set of the confirmed.
ghost use Rattle.std.specs.Prelude.{◌<◌, ◌≡◌, ◌&&◌, eqb};
ghost use Rattle.laws.specs.Mask.{bit};
ghost use Rattle.sheet.specs.Field.{count, parent};
ghost use Rattle.ledger.specs.Coin.{coin_of};
ghost use Rattle.readings.specs.Holder.{confirmed_child, ends_coin};
ghost use Rattle.readings.specs.Forms.Holder.{coin_from, coin_end};

use sheet::field::Sheet;
use sheet::set;

// The first opening from t up the sheet, `first` where there is none.
fn coin_from(sheet: &Sheet, first: usize, t: usize) -> usize
    requires t_bound { t < count sheet.now.bytes }
    ensures { result ≡ coin_from sheet.now.bytes first t }
{
    if sheet.opening(t) {
        return t;
    }
    let up = sheet.parent(t);
    if up < t {
        coin_from(sheet, first, up)
    } else {
        first
    }
}

// The coin of t: the opening at the top of its line.
pub fn coin_of(sheet: &Sheet, t: usize) -> usize
    requires t_bound { t < count sheet.now.bytes }
    ensures { result ≡ coin_of sheet.now.bytes t }
{
    coin_from(sheet, t, t)
}

// Whether k is a child of t and in the set.
fn child_there(sheet: &Sheet, confirmed: u32, k: usize, t: usize) -> bool
    requires k_bound { k < count sheet.now.bytes }
    ensures { result ≡ (eqb (parent sheet.now.bytes k) t && bit confirmed k) }
{
    if sheet.parent(k) == t {
        return set::has(confirmed, k);
    }
    false
}

// Whether t has a confirmed child.
pub fn confirmed_child(sheet: &Sheet, confirmed: u32, t: usize) -> bool
    ensures { result ≡ confirmed_child sheet.now.bytes (bit confirmed) t }
{
    (0..sheet.count()).any(|k| child_there(sheet, confirmed, k, t))
}

// Whether t is of the coin and confirmed, without a confirmed child.
fn ends_coin(sheet: &Sheet, confirmed: u32, coin: usize, t: usize) -> bool
    requires t_bound { t < count sheet.now.bytes }
    ensures { result ≡ ends_coin sheet.now.bytes (bit confirmed) coin t }
{
    if coin_of(sheet, t) != coin {
        return false;
    }
    if !set::has(confirmed, t) {
        return false;
    }
    !confirmed_child(sheet, confirmed, t)
}

// The transaction whose payee holds the coin, 255 where nobody does.
pub fn coin_end(sheet: &Sheet, confirmed: u32, coin: usize) -> usize
    ensures { result ≡ coin_end sheet.now.bytes (bit confirmed) coin }
{
    let n = sheet.count();
    let mut found: usize = 255;
    for t in 0..n {
        if ends_coin(sheet, confirmed, coin, t) {
            found = t;
        }
    }
    found
}
