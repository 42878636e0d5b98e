// The greatest number of blocks for which X keeps a way to a payout, as the position stands.
ghost use Rattle.std.specs.Prelude.{◌≤◌, ◌≡◌};
ghost use Rattle.laws.specs.Greatest.{greatest_to};
ghost use Rattle.sheet.specs.LockHeight.{never};
ghost use Rattle.slack.specs.Kept.{longest};
ghost use Rattle.kept.specs.Forms.Evaluation.{Bounded, Falls, kept_over};

use crate::{Prospect, kept};
use slots::lock_height;

// The longest outage that is asked for.
pub const LONGEST: u32 = 10000;

// Whether X keeps a way to a payout for so many blocks.
fn kept_over(prospect: Prospect, blocks: u32) -> bool
    requires bounded { Bounded prospect }
    requires blocks_le_longest { blocks ≤ longest }
    ensures { result ≡ kept_over prospect blocks }
{
    let off = prospect.mined + blocks;
    kept::kept_to(prospect, off)
}

// The greatest number of blocks up to the longest, by halves; never where there is none.
pub fn kept_for(prospect: Prospect) -> u32
    requires bounded { Bounded prospect }
    requires falls { Falls prospect }
    ensures { result ≡ greatest_to longest (kept_over prospect) never }
{
    let mut low: u32 = 0;
    let mut high: u32 = LONGEST + 1;
    if !kept_over(prospect, low) {
        return lock_height::NEVER;
    }
    // It counts nothing: each turn halves what is between the two.
    while low + 1 < high {
        let middle = (low + high) / 2;
        if kept_over(prospect, middle) {
            low = middle;
            continue;
        }
        high = middle;
    }
    low
}
