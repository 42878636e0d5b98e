// The setup: its fields, and the checks 9, 32 and 10.
ghost use Rattle.std.specs.Prelude.{◌<◌, ◌≡◌, length, eqb};
ghost use Rattle.sheet.specs.Field.{parties};
ghost use Rattle.sheet.specs.Refusal.{refused};
ghost use Rattle.sheet.specs.Setup.{per_day, conduct, stealth, blocks_right, parties_right, conduct_right, setup_refusal};

use crate::refusal::{Refusal, require};
use crate::{field, little, saswap};

// The blocks per day.
pub fn per_day(setup: &[u8]) -> u16
    requires { length setup.now ≡ 4 }
    ensures { result ≡ per_day setup.now }
{
    little::u16_at(setup, 0)
}

// The conduct: 0 open, 1 loose, 2 careful.
pub fn conduct(setup: &[u8]) -> u8
    requires { length setup.now ≡ 4 }
    ensures { result ≡ conduct setup.now }
{
    setup[2]
}

// 1 where a transaction can be handed to the miner.
pub fn stealth(setup: &[u8]) -> u8
    requires { length setup.now ≡ 4 }
    ensures { result ≡ stealth setup.now }
{
    setup[3]
}

// 9: four bytes, and 1 to 1,000 blocks per day.
fn blocks_right(setup: &[u8]) -> bool
    ensures { result ≡ blocks_right setup.now }
{
    if setup.len() != 4 {
        return false;
    }
    let blocks = per_day(setup);
    1 <= blocks && blocks <= 1000
}

// Whether a sheet has three parties.
fn is_ring(sheet: &[u8]) -> bool
    ensures { result ≡ eqb (parties sheet.now) 3 }
{
    if sheet.len() == 0 {
        return false;
    }
    field::parties(sheet) == 3
}

// 32: a sheet of three parties has neither conduct 1 nor 2.
fn parties_right(sheet: &[u8], setup: &[u8]) -> bool
    requires { length setup.now ≡ 4 }
    ensures { result ≡ parties_right sheet.now setup.now }
{
    if !is_ring(sheet) {
        return true;
    }
    let way = conduct(setup);
    if way == 1 {
        return false;
    }
    way != 2
}

// 10: conduct and stealth are in range, and the sheet fits the conduct.
fn conduct_right(sheet: &[u8], setup: &[u8]) -> bool
    requires { length setup.now ≡ 4 }
    ensures { result ≡ conduct_right sheet.now setup.now }
{
    let way = conduct(setup);
    if 2 < way {
        return false;
    }
    if 1 < stealth(setup) {
        return false;
    }
    if way == 0 {
        return true;
    }
    saswap::is_saswap(sheet, per_day(setup))
}

// The first of the checks 9, 32 and 10 that fails.
pub fn setup_refusal(sheet: &[u8], setup: &[u8]) -> Result<(), Refusal>
    ensures { refused result ≡ setup_refusal sheet.now setup.now }
{
    require(blocks_right(setup), Refusal::SetupBlocks)?;
    require(parties_right(sheet, setup), Refusal::SetupParties)?;
    require(conduct_right(sheet, setup), Refusal::SetupConduct)
}
