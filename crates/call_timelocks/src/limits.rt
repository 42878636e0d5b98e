// What keeps the two numbers within Bitcoin's fields: 26 and 27.
ghost use Rattle.std.specs.Prelude.{◌<◌, ◌+◌, ◌≡◌};
ghost use Rattle.laws.specs.Failing.{first_failing};
ghost use Rattle.sheet.specs.Refusal.{refused};
ghost use Rattle.sheet.specs.Field.{count};
ghost use Rattle.call_timelocks.specs.Limits.{relative_right, absolute_right, limit_tests};

use crate::fields;
use sheet::field;
use sheet::field::Sheet;
use sheet::refusal::{Refusal, require};
use slots::lock_height::lock_blocks;

// The largest value that BIP 68 reads, its low 16 bits.
const RELATIVE_MOST: u32 = 65535;

// From here on nLockTime is a time.
const THRESHOLD: u64 = 500000000;

// A sum that cannot wrap.
fn sum(base: u32, blocks: u32) -> u64
    ensures { result ≡ base + blocks }
{
    (base as u64) + (blocks as u64)
}

// 26: the value of a lock since the parent fits 16 bits.
fn relative_right(sheet: &Sheet, per_day: u16, t: usize) -> bool
    requires t_bound { t < count sheet.now.bytes }
    ensures { result ≡ relative_right sheet.now.bytes per_day t }
{
    if sheet.lock_type(t) != 2 {
        return true;
    }
    fields::sequence(sheet, per_day, t) <= RELATIVE_MOST
}

// 27: the height of an absolute lock stays below the threshold.
fn absolute_right(sheet: &Sheet, per_day: u16, base: u32, t: usize) -> bool
    requires t_bound { t < count sheet.now.bytes }
    ensures { result ≡ absolute_right sheet.now.bytes per_day base t }
{
    if sheet.lock_type(t) != 1 {
        return true;
    }
    sum(base, lock_blocks(sheet, per_day, t)) < THRESHOLD
}

// The first of 26 and 27 that fails.
pub fn limit_refusal(sheet: &Sheet, per_day: u16, base: u32) -> Result<(), Refusal>
    ensures { refused result ≡ first_failing (limit_tests sheet.now.bytes per_day base) }
{
    let n = sheet.count();
    require(
        (0..n).all(|t| relative_right(sheet, per_day, t)),
        Refusal::TimelockRelative,
    )?;
    require(
        (0..n).all(|t| absolute_right(sheet, per_day, base, t)),
        Refusal::TimelockAbsolute,
    )
}
