// The tables of heights, over the marks.
ghost use Rattle.std.specs.Prelude.{◌*◌, ◌<◌, ◌≡◌, ◌||◌, ◌&&◌, not, eqb, get_or};
ghost use Rattle.laws.specs.Booleans.{pick};
ghost use Rattle.laws.specs.Mask.{bit};
ghost use Rattle.soonest.specs.Forms.Table.{Filled};
ghost use Rattle.kept.specs.Forms.Prospect.{none};
ghost use Rattle.prospect.specs.Forms.Tables.{least_late, beat_at, open_until, fails_at, until_at, ends_at, Sound, Cells};

use crate::{Marks, rival, threshold};
use sheet::{set, table};
use slots::lock_height;

// The height from which t fails by a late rival.
fn late_until(marks: Marks, t: usize) -> u32
    requires sound { Sound marks }
    requires t_lt_count { t < marks.count }
    ensures { result ≡ pick (not (eqb marks.stealth 0) || bit marks.pooled t) none (least_late marks t) }
{
    if marks.stealth != 0 {
        return threshold::NONE;
    }
    if set::has(marks.pooled, t) {
        return threshold::NONE;
    }
    rival::least_late(marks, t)
}

// The height from which t fails, whatever X knows.
fn open_until(marks: Marks, t: usize) -> u32
    requires sound { Sound marks }
    requires t_lt_count { t < marks.count }
    ensures { result ≡ open_until marks t }
{
    if set::has(marks.gone, t) {
        return 0;
    }
    if set::has(marks.payable, t) {
        return late_until(marks, t);
    }
    0
}

// Whether t can be signed, or need not.
fn sure(marks: Marks, t: usize) -> bool
    requires { t < 32 }
    ensures { result ≡ (bit marks.signs t || bit marks.pooled t) }
{
    if set::has(marks.signs, t) {
        return true;
    }
    set::has(marks.pooled, t)
}

// The height from which t fails.
fn fails_at(marks: Marks, t: usize) -> u32
    requires sound { Sound marks }
    requires t_lt_count { t < marks.count }
    ensures { result ≡ fails_at marks t }
{
    if sure(marks, t) {
        return open_until(marks, t);
    }
    0
}

// The height from which t, whatever X knows, fails or is beaten, where a set tells those that come.
pub fn until_at(marks: Marks, come: u32, t: usize) -> u32
    requires sound { Sound marks }
    requires t_lt_count { t < marks.count }
    ensures { result ≡ until_at marks come t }
{
    rival::lower(open_until(marks, t), rival::least_beat(marks, come, t))
}

// Whether the last block of t is known.
fn dated(marks: Marks, t: usize) -> bool
    requires { t < 32 }
    ensures { result ≡ (bit marks.fixed t && bit marks.signs t) }
{
    if set::has(marks.fixed, t) {
        return set::has(marks.signs, t);
    }
    false
}

// The height of t's last block but for stealth, where the outage is not later.
fn ends_at(marks: Marks, t: usize) -> u32
    requires sound { Sound marks }
    requires t_bound { t < 32 }
    ensures { result ≡ ends_at marks t }
{
    if dated(marks, t) {
        return marks.lock[t];
    }
    lock_height::NEVER - marks.stealth
}

// The heights from which each transaction fails.
pub fn fails(marks: Marks) -> [u32; 32]
    requires { Sound marks }
    ensures { Filled (λ t v. v ≡ fails_at marks t) marks.count result }
{
    table::filled(marks.count, 0, |t| fails_at(marks, t))
}

// The heights of the last blocks.
pub fn ends(marks: Marks) -> [u32; 32]
    requires { Sound marks }
    ensures { Filled (λ t v. v ≡ ends_at marks t) marks.count result }
{
    table::filled(marks.count, 0, |t| ends_at(marks, t))
}

// The heights from which each transaction is beaten by each, where a table tells those that come.
pub fn beats(marks: Marks, come: [u32; 32]) -> [u32; 1024]
    requires { Sound marks }
    ensures { Cells (λ t k v. v ≡ beat_at marks (get_or come t 0) t k) (32 * marks.count) result }
{
    table::filled(
        32 * marks.count,
        0,
        |i| rival::beat_at(marks, come[i / 32], i / 32, i % 32),
    )
}
