// Which transaction X counts on.
ghost use Rattle.std.specs.Prelude.{◌+◌, ◌*◌, ◌<◌, ◌≤◌, ◌≡◌, leb, get_or};
ghost use Rattle.laws.specs.Below.{any_below};
ghost use Rattle.sheet.specs.LockHeight.{never};
ghost use Rattle.kept.specs.Forms.Evaluation.{Bounded, sure_in, lowest_in, counted_in};

use crate::{Prospect, kept};
use sheet::set;

// No transaction: the byte that a row of slack has for none, as in lowest_in of specs/Forms/Evaluation.antt.
pub const NOBODY: u8 = 255;

// Whether something beats t.
fn is_beaten(beat: &[u32; 1024], n: usize, t: usize, off: u32) -> bool
    requires n_bound { n ≤ 32 }
    requires t_bound { t < 32 }
    ensures { result ≡ any_below n (λ r. leb (get_or beat.now (32 * t + r) 0) off) }
{
    (0..n).any(|r| beat[32 * t + r] <= off)
}

// Those of a set that nothing beats.
fn sure(beat: &[u32; 1024], n: usize, found: u32, off: u32) -> u32
    requires { n ≤ 32 }
    ensures { result ≡ sure_in beat.now n found off }
{
    set::below(n, |t| set::has(found, t) && !is_beaten(beat, n, t, off))
}

// The lowest of a set.
fn lowest(n: usize, found: u32) -> u8
    requires { n ≤ 32 }
    ensures { result ≡ lowest_in n found }
{
    (0..n)
        .find(|t| set::has(found, *t))
        .map_or(NOBODY, |t| t as u8)
}

// What X counts on up to a height: one that nothing beats before others, then the lowest; none where X is paid.
pub fn counted(prospect: Prospect, off: u32) -> u8
    requires bounded { Bounded prospect }
    requires off_le_never { off ≤ never }
    ensures { result ≡ counted_in prospect off }
{
    if prospect.paid {
        return NOBODY;
    }
    let n = prospect.count;
    let found = kept::reached(prospect, off);
    let safe = lowest(n, sure(&prospect.beat, n, found, off));
    if safe != NOBODY {
        return safe;
    }
    lowest(n, found)
}
