// What rivals do to a transaction, over the marks.
ghost use Rattle.std.specs.Prelude.{◌<◌, min, ◌≡◌, not, ◌&&◌, get_or};
ghost use Rattle.laws.specs.Booleans.{pick};
ghost use Rattle.laws.specs.Mask.{bit};
ghost use Rattle.kept.specs.Forms.Prospect.{none};
ghost use Rattle.prospect.specs.Forms.Marks.{comers_in};
ghost use Rattle.prospect.specs.Forms.Tables.{late_at, least_late, held, waits_in, sooner_at, beat_at, least_beat, Sound};

use crate::{Marks, threshold};
use sheet::set;

// The lower of two heights.
pub fn lower(a: u32, b: u32) -> u32
    ensures { result ≡ min a b }
{
    if a <= b { a } else { b }
}

// Whether t pays and can come for another than X.
fn comes_apart(contract: u32, elsewhere: u32, t: usize) -> bool
    requires { t < 32 }
    ensures { result ≡ (not (bit contract t) && bit elsewhere t) }
{
    if set::has(contract, t) {
        return false;
    }
    set::has(elsewhere, t)
}

// The rivals of t that come beside it, of what can come and what can come for another than X.
pub fn comers(marks: Marks, can: u32, elsewhere: u32, t: usize) -> u32
    requires { t < 32 }
    ensures { result ≡ comers_in marks can elsewhere t }
{
    set::join(
        set::remove(marks.rivals[t] & can, t),
        comes_apart(marks.contract, elsewhere, t),
        t,
    )
}

// The height from which r is late for t.
fn late_at(marks: Marks, t: usize, r: usize) -> u32
    requires sound { Sound marks }
    requires t_lt_count { t < marks.count }
    requires r_lt_count { r < marks.count }
    ensures { result ≡ late_at marks t r }
{
    let fixed = set::has(marks.fixed, t);
    let runs = set::has(marks.runs, t);
    let since = set::has(marks.since, t);
    threshold::late_from(
        fixed,
        runs,
        since,
        set::has(marks.since, r),
        marks.lock[t],
        marks.lock[r],
    )
}

// The same for a rival, none for any other.
fn rival_late(marks: Marks, t: usize, r: usize) -> u32
    requires sound { Sound marks }
    requires t_lt_count { t < marks.count }
    requires r_lt_count { r < marks.count }
    ensures { result ≡ pick (bit (get_or marks.rivals t 0) r) (late_at marks t r) none }
{
    if set::has(marks.rivals[t], r) {
        return late_at(marks, t, r);
    }
    threshold::NONE
}

// The height from which some rival is late for t.
pub fn least_late(marks: Marks, t: usize) -> u32
    requires sound { Sound marks }
    requires t_lt_count { t < marks.count }
    ensures { result ≡ least_late marks t }
{
    let mut best: u32 = threshold::NONE;
    for r in 0..marks.count {
        best = lower(best, rival_late(marks, t, r));
    }
    best
}

// Whether nothing beats t: in the pool, without stealth.
fn held(marks: Marks, t: usize) -> bool
    requires { t < 32 }
    ensures { result ≡ held marks t }
{
    if marks.stealth != 0 {
        return false;
    }
    set::has(marks.pooled, t)
}

// Whether r can come before t.
fn comes_at(marks: Marks, come: u32, t: usize, r: usize) -> bool
    requires t_bound { t < 32 }
    requires r_bound { r < 32 }
    ensures { result ≡ (not (held marks t) && bit come r) }
{
    if held(marks, t) {
        return false;
    }
    set::has(come, r)
}

// Whether r waits before t.
fn waits_at(marks: Marks, t: usize, r: usize) -> bool
    requires t_bound { t < 32 }
    requires r_bound { r < 32 }
    ensures { result ≡ waits_in marks t r }
{
    if r == t {
        return set::has(marks.apart, t);
    }
    set::has(marks.waits, r)
}

// The height from which r is sooner than t.
fn sooner_at(marks: Marks, t: usize, r: usize) -> u32
    requires t_bound { t < 32 }
    requires r_bound { r < 32 }
    ensures { result ≡ sooner_at marks t r }
{
    let pooled = set::has(marks.pooled, t);
    let fixed = set::has(marks.fixed, t);
    let runs = set::has(marks.runs, t);
    threshold::sooner_from(
        pooled,
        fixed,
        runs,
        set::has(marks.since, r),
        marks.lock[t],
        marks.lock[r],
    )
}

// The height from which r beats t, where a set tells those that come.
pub fn beat_at(marks: Marks, come: u32, t: usize, r: usize) -> u32
    requires t_bound { t < 32 }
    requires r_bound { r < 32 }
    ensures { result ≡ beat_at marks come t r }
{
    threshold::beat_from(
        comes_at(marks, come, t, r),
        waits_at(marks, t, r),
        sooner_at(marks, t, r),
    )
}

// The height from which some rival beats t.
pub fn least_beat(marks: Marks, come: u32, t: usize) -> u32
    requires sound { Sound marks }
    requires t_bound { t < 32 }
    ensures { result ≡ least_beat marks come t }
{
    let mut best: u32 = threshold::NONE;
    for r in 0..marks.count {
        best = lower(best, beat_at(marks, come, t, r));
    }
    best
}
