// The tests of an ending: 33, then 34.
ghost use Rattle.std.specs.Prelude.{◌*◌, ◌^◌, ◌≤◌, ◌<◌, ◌≡◌, not, ◌&&◌, ltb, length};
ghost use Rattle.laws.specs.Below.{all_below};
ghost use Rattle.laws.specs.Failing.{first_failing};
ghost use Rattle.laws.specs.Sum.{bits_below};
ghost use Rattle.sheet.specs.Refusal.{refused};
ghost use Rattle.sheet.specs.Field.{count};
ghost use Rattle.sheet.specs.Checked.{Fit};
ghost use Rattle.slots.specs.Destination.{is_contract};
ghost use Rattle.steps.specs.Decode.{shares_to};
ghost use Rattle.endings.specs.Ending.{paying_named, ending_right, coins_apart, in_time, is_possible, ending_tests};
ghost use Rattle.endings.specs.Forms.Bounds.{Ones};

use crate::block::earliest_block;
use crate::planned::is_planned;
use readings::holder::coin_of;
use sheet::field::Sheet;
use sheet::little::u32_at;
use sheet::refusal::{Refusal, require};
use sheet::set;
use slots::party;

// The number of a mask's bits below n.
pub fn ones_below(mask: u32, n: usize) -> usize
    requires { n ≤ 32 }
    ensures { Ones (bits_below n mask) n result }
{
    let below = (1u64 << n) - 1;
    (mask as u64 & below).count_ones() as usize
}

// Whether a number is a payee of t, which is a paying transaction.
fn pays(sheet: &Sheet, t: usize, to: u32) -> bool
    requires t_bound { t < count sheet.now.bytes }
    ensures { result ≡ (not (is_contract sheet.now.bytes t) && shares_to sheet.now.bytes t to) }
{
    if party::is_contract(sheet, t) {
        return false;
    }
    if to < 4 {
        return party::is_payee(sheet, t, to as u8);
    }
    false
}

// Whether t is not in the mask, or is a paying one with a payee for its destination.
fn paying_named(sheet: &Sheet, mask: u32, dests: &[u8], t: usize) -> bool
    requires t_bound { t < count sheet.now.bytes }
    requires dests_len { length dests.now ≡ 4 * bits_below (count sheet.now.bytes) mask }
    ensures { result ≡ paying_named sheet.now.bytes mask dests.now t }
{
    if !set::has(mask, t) {
        return true;
    }
    let place = ones_below(mask, t);
    pays(sheet, t, u32_at(dests, 4 * place))
}

// The same of every transaction.
fn all_named(sheet: &Sheet, mask: u32, dests: &[u8]) -> bool
    requires dests_len { length dests.now ≡ 4 * bits_below (count sheet.now.bytes) mask }
    ensures { result ≡ all_below (count sheet.now.bytes) (paying_named sheet.now.bytes mask dests.now) }
{
    (0..sheet.count()).all(|t| paying_named(sheet, mask, dests, t))
}

// Whether every number of the mask is below n.
fn mask_within(mask: u32, n: usize) -> bool
    requires { n ≤ 32 }
    ensures { result ≡ ltb mask (2 ^ n) }
{
    if n < 32 {
        return mask < (1u32 << n);
    }
    true
}

// 33: the mask names paying transactions of the sheet, and there is a payee for each.
fn ending_right(sheet: &Sheet, mask: u32, dests: &[u8]) -> bool
    ensures { result ≡ ending_right sheet.now.bytes mask dests.now }
{
    let n = sheet.count();
    if !mask_within(mask, n) {
        return false;
    }
    if dests.len() != 4 * ones_below(mask, n) {
        return false;
    }
    all_named(sheet, mask, dests)
}

// Whether x and y are not two of the mask of one coin.
fn coins_apart(sheet: &Sheet, mask: u32, x: usize, y: usize) -> bool
    requires x_bound { x < count sheet.now.bytes }
    requires y_bound { y < count sheet.now.bytes }
    ensures { result ≡ coins_apart sheet.now.bytes mask x y }
{
    if !set::has(mask, x) {
        return true;
    }
    if !set::has(mask, y) {
        return true;
    }
    if coin_of(sheet, x) != coin_of(sheet, y) {
        return true;
    }
    x == y
}

// The same of x and every transaction.
fn apart_from(sheet: &Sheet, mask: u32, x: usize) -> bool
    requires x_bound { x < count sheet.now.bytes }
    ensures { result ≡ all_below (count sheet.now.bytes) (coins_apart sheet.now.bytes mask x) }
{
    (0..sheet.count()).all(|y| coins_apart(sheet, mask, x, y))
}

// No two of the mask are of one coin.
fn all_apart(sheet: &Sheet, mask: u32) -> bool
    ensures { result ≡ all_below (count sheet.now.bytes) (λ x. all_below (count sheet.now.bytes) (coins_apart sheet.now.bytes mask x)) }
{
    (0..sheet.count()).all(|x| apart_from(sheet, mask, x))
}

// Whether t is not planned, or its earliest block is none beyond the last.
fn in_time(sheet: &Sheet, per_day: u16, mask: u32, t: usize) -> bool
    requires t_bound { t < count sheet.now.bytes }
    ensures { result ≡ in_time sheet.now.bytes per_day mask t }
{
    if !is_planned(sheet, mask, t) {
        return true;
    }
    earliest_block(sheet, per_day, t) <= 10000
}

// The same of every transaction.
fn all_in_time(sheet: &Sheet, per_day: u16, mask: u32) -> bool
    ensures { result ≡ all_below (count sheet.now.bytes) (in_time sheet.now.bytes per_day mask) }
{
    (0..sheet.count()).all(|t| in_time(sheet, per_day, mask, t))
}

// What 34 comes to: no two of one coin, and no block beyond the last.
fn is_possible(sheet: &Sheet, per_day: u16, mask: u32) -> bool
    ensures { result ≡ is_possible sheet.now.bytes per_day mask }
{
    if all_apart(sheet, mask) {
        return all_in_time(sheet, per_day, mask);
    }
    false
}

// The first of 33 and 34 that fails.
pub fn ending_refusal(sheet: &Sheet, setup: &[u8], mask: u32, dests: &[u8]) -> Result<(), Refusal>
    requires { Fit sheet.now.bytes setup.now }
    ensures { refused result ≡ first_failing (ending_tests sheet.now.bytes setup.now mask dests.now) }
{
    require(ending_right(sheet, mask, dests), Refusal::EndingField)?;
    require(
        is_possible(sheet, sheet::setup::per_day(setup), mask),
        Refusal::EndingImpossible,
    )
}
