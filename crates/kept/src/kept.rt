// What is kept up to a height, over the tables of a prospect.
ghost use Rattle.std.specs.Prelude.{◌+◌, ◌*◌, ◌<◌, ◌≤◌, ◌≡◌, not, ◌||◌, get_or};
ghost use Rattle.laws.specs.Booleans.{pick};
ghost use Rattle.laws.specs.Mask.{bit};
ghost use Rattle.laws.specs.Sets.{set_below};
ghost use Rattle.sheet.specs.LockHeight.{never};
ghost use Rattle.soonest.specs.Soonest.{greater};
ghost use Rattle.soonest.specs.Forms.Table.{Filled};
ghost use Rattle.kept.specs.Forms.Evaluation.{within, clear_in, reaches_in, is_unmet_in, unmet_in, needs_over, needs_in, parents_in, good_in, rounds_in, reached_in, kept_in, Bounded};

use crate::Prospect;
use sheet::{set, table};

// Whether each bit of a is b's.
fn within(a: u32, b: u32) -> bool
    ensures { result ≡ within a b }
{
    a & b == a
}

// Those that stand and are unbeaten beside what is above t, where X knows this, up to a height.
fn clear<'a>(
    lacks: &'a [u32; 32],
    until: &'a [u32; 1024],
    n: usize,
    t: usize,
    know: u32,
    at: u32,
) -> u32
    requires n_bound { n ≤ 32 }
    requires t_bound { t < 32 }
    ensures { result ≡ clear_in lacks.now until.now n t know at }
{
    set::below(n, |k| within(lacks[k], know) && at < until[32 * t + k])
}

// Whether one that is aimed at has its line clear.
fn reaches(line: &[u32; 32], n: usize, aims: u32, clear: u32) -> bool
    requires { n ≤ 32 }
    ensures { result ≡ reaches_in line.now n aims clear }
{
    (0..n).any(|w| set::has(aims, w) && within(line[w], clear))
}

// What decides, for t, whether what beats it is met.
#[derive(Clone, Copy)]
struct Aim {
    t: usize,
    // those that a free line elsewhere may reach
    aims: u32,
    // those that can come for X only
    only: u32,
    know: u32,
    // the height of t's last block
    last: u32,
    off: u32,
}

// Whether r, which beats t from the height `beat` on, neither comes for X only nor leaves a free line elsewhere, `secrets` being its own.
fn is_unmet<'a>(
    lacks: &'a [u32; 32],
    until: &'a [u32; 1024],
    line: &'a [u32; 32],
    n: usize,
    aim: Aim,
    beat: u32,
    secrets: u32,
    r: usize,
) -> bool
    requires n_bound { n ≤ 32 }
    requires t_bound { aim.t < 32 }
    requires r_bound { r < 32 }
    ensures { result ≡ is_unmet_in lacks.now until.now line.now n aim beat secrets r }
{
    if aim.off < beat {
        return false;
    }
    if set::has(aim.only, r) {
        return false;
    }
    let found = clear(lacks, until, n, aim.t, aim.know | secrets, aim.last);
    !reaches(line, n, aim.aims, found)
}

// Those that are so.
fn unmet<'a>(
    lacks: &'a [u32; 32],
    until: &'a [u32; 1024],
    line: &'a [u32; 32],
    secrets: &'a [u32; 32],
    beat: &'a [u32; 1024],
    n: usize,
    aim: Aim,
) -> u32
    requires n_bound { n ≤ 32 }
    requires t_bound { aim.t < 32 }
    ensures { result ≡ unmet_in lacks.now until.now line.now secrets.now beat.now n aim }
{
    let t = aim.t;
    set::below(
        n,
        |r| is_unmet(lacks, until, line, n, aim, beat[32 * t + r], secrets[r], r),
    )
}

// The height of the last block, where `end` is it but for stealth and the outage.
fn last(off: u32, end: u32, stealth: u32) -> u32
    requires off_le_never { off ≤ never }
    requires end_le_never { end ≤ never }
    requires stealth_bound { stealth ≤ 1 }
    ensures { result ≡ greater off end + stealth }
{
    if off < end {
        return end + stealth;
    }
    off + stealth
}

// What t needs a good child of: itself where it fails, which cannot help.
fn needs<'a>(
    lacks: &'a [u32; 32],
    until: &'a [u32; 1024],
    line: &'a [u32; 32],
    secrets: &'a [u32; 32],
    beat: &'a [u32; 1024],
    n: usize,
    aim: Aim,
    fails: u32,
) -> u32
    requires n_bound { n ≤ 32 }
    requires t_bound { aim.t < 32 }
    ensures { result ≡ needs_over lacks.now until.now line.now secrets.now beat.now n aim fails }
{
    if aim.off < fails {
        return unmet(lacks, until, line, secrets, beat, n, aim);
    }
    set::join(0, true, aim.t)
}

// What each needs.
fn all_needs(prospect: Prospect, off: u32) -> [u32; 32]
    requires bounded { Bounded prospect }
    requires off_le_never { off ≤ never }
    ensures { Filled (λ t x. x ≡ needs_in prospect off t) prospect.count result }
{
    let n = prospect.count;
    table::filled(n, 0, |t| {
        let aim = Aim {
            t,
            aims: prospect.aims[t],
            only: prospect.only[t],
            know: prospect.known[t],
            last: last(off, prospect.ends[t], prospect.stealth),
            off,
        };
        needs(
            &prospect.lacks,
            &prospect.until,
            &prospect.line,
            &prospect.secrets,
            &prospect.beat,
            n,
            aim,
            prospect.fails[t],
        )
    })
}

// A set where a test holds, else none.
fn where_good(on: bool, up: u32) -> u32
    ensures { result ≡ pick on up 0 }
{
    if on { up } else { 0 }
}

// The parents of the members of a set.
fn parents(up: &[u32; 32], n: usize, good: u32) -> u32
    requires { n ≤ 32 }
    ensures { result ≡ parents_in up.now n good }
{
    let mut found: u32 = 0;
    for c in 0..n {
        found = found | where_good(set::has(good, c), up[c]);
    }
    found
}

// Whether t pays or is a parent of a good one.
fn leads(contract: u32, parents: u32, t: usize) -> bool
    requires { t < 32 }
    ensures { result ≡ (not (bit contract t) || bit parents t) }
{
    if set::has(contract, t) {
        return set::has(parents, t);
    }
    true
}

// Whether t is good, where a set tells the parents of the good ones so far.
fn is_good(contract: u32, needs: u32, parents: u32, t: usize) -> bool
    requires { t < 32 }
    ensures { result ≡ good_in contract needs parents t }
{
    if leads(contract, parents, t) {
        return within(needs, set::remove(parents, t));
    }
    false
}

// Those that are good.
fn all_good(contract: u32, needs: &[u32; 32], parents: u32, n: usize) -> u32
    requires { n ≤ 32 }
    ensures { result ≡ set_below n (λ t. good_in contract (get_or needs.now t 0) parents t) }
{
    set::below(n, |t| is_good(contract, needs[t], parents, t))
}

// Those that are good by others, round after round, until a round changes nothing.
fn good<'a>(up: &'a [u32; 32], needs: &'a [u32; 32], contract: u32, n: usize) -> u32
    requires { n ≤ 32 }
    ensures { result ≡ rounds_in up.now (λ t. get_or needs.now t 0) contract n n }
{
    let mut found: u32 = 0;
    for _ in 0..n {
        let next = all_good(contract, needs, parents(up, n, found), n);
        if next == found {
            return found;
        }
        found = next;
    }
    found
}

// Those that are good and have their parent confirmed or none.
pub fn reached(prospect: Prospect, off: u32) -> u32
    requires bounded { Bounded prospect }
    requires off_le_never { off ≤ never }
    ensures { result ≡ reached_in prospect off }
{
    let n = prospect.count;
    let needs = all_needs(prospect, off);
    let found = good(&prospect.up, &needs, prospect.contract, n);
    found & prospect.fixed
}

// Whether X keeps a way to a payout up to a height.
pub fn kept_to(prospect: Prospect, off: u32) -> bool
    requires bounded { Bounded prospect }
    requires off_le_never { off ≤ never }
    ensures { result ≡ kept_in prospect off }
{
    if prospect.paid {
        return true;
    }
    reached(prospect, off) != 0
}
