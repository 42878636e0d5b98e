// The two numbers of a transaction, and their bytes.
ghost use Rattle.std.specs.Prelude.{◌<◌, ◌≤◌, ◌*◌, ◌≡◌, true, length};
ghost use Rattle.laws.specs.Below.{all_below};
ghost use Rattle.laws.specs.Over.{over};
ghost use Rattle.sheet.specs.Field.{count};
ghost use Rattle.call_timelocks.specs.Fields.{n_lock_time, n_sequence, timelock_bytes};
ghost use Rattle.call_timelocks.specs.Limits.{absolute_right};

use output::row::write_pair;
use sheet::field;
use sheet::field::Sheet;
use slots::lock_height::lock_blocks;

// FFFFFFFF: no lock at all.
const FINAL: u32 = 4294967295;

// FFFFFFFE: nLockTime counts, and BIP 68 does not.
const NOT_FINAL: u32 = 4294967294;

// nLockTime, where 27 is not given.
fn lock_time(sheet: &Sheet, per_day: u16, base: u32, t: usize) -> u32
    requires t_bound { t < count sheet.now.bytes }
    requires t_value { absolute_right sheet.now.bytes per_day base t ≡ true }
    ensures { result ≡ n_lock_time sheet.now.bytes per_day base t }
{
    if sheet.lock_type(t) != 1 {
        return 0;
    }
    base + lock_blocks(sheet, per_day, t)
}

// nSequence.
pub fn sequence(sheet: &Sheet, per_day: u16, t: usize) -> u32
    requires t_bound { t < count sheet.now.bytes }
    ensures { result ≡ n_sequence sheet.now.bytes per_day t }
{
    let lock = sheet.lock_type(t);
    if lock == 0 {
        return FINAL;
    }
    if lock == 1 {
        return NOT_FINAL;
    }
    lock_blocks(sheet, per_day, t) + 1
}

// The numbers of every transaction, at the front of the buffer.
pub fn write_fields(sheet: &Sheet, per_day: u16, base: u32, out: &mut [u8])
    requires base_value { all_below (count sheet.now.bytes) (absolute_right sheet.now.bytes per_day base) ≡ true }
    requires sheet_in_bounds { 8 * count sheet.now.bytes ≤ length out.old }
    ensures { out.new ≡ over (timelock_bytes sheet.now.bytes per_day base) out.old }
{
    for t in 0..sheet.count() {
        let first = lock_time(sheet, per_day, base, t);
        let second = sequence(sheet, per_day, t);
        write_pair(&mut out[8 * t..], first, second);
    }
}
