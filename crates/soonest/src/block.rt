// The soonest block: over the parent's, which has a lower number.
ghost use Rattle.std.specs.Prelude.{◌<◌, ◌≡◌};
ghost use Rattle.sheet.specs.Field.{count};
ghost use Rattle.position.specs.Position.{block_of};
ghost use Rattle.soonest.specs.Soonest.{greater, soonest_over, soonest_block};
ghost use Rattle.soonest.specs.Forms.Bounds.{Below, Soon};
ghost use Rattle.soonest.specs.Forms.Table.{Filled};

use crate::{lock, table};
use position::Position;
use sheet::field::Sheet;

// The greater of two numbers.
fn greater(a: u32, b: u32) -> u32
    ensures { result ≡ greater a b }
{
    if a < b {
        return b;
    }
    a
}

// The soonest block of t, whose own block is `block`, where e is its parent's soonest one, 0 for an opening.
fn soonest_over(sheet: &Sheet, per_day: u16, block: u16, mined: u16, t: usize, e: u32) -> u32
    requires t_bound { t < count sheet.now.bytes }
    requires below { Below t e }
    ensures { Soon (soonest_over sheet.now.bytes per_day block mined t e) t result }
{
    if 0 < block {
        return block as u32;
    }
    let lock = lock::lock_at(sheet, per_day, e, t);
    let next = (mined as u32) + 1;
    greater(next, greater(e, lock + 1))
}

// The soonest blocks of all transactions, in a table.
pub fn soonest_blocks(position: Position, sheet: &Sheet, per_day: u16) -> [u32; 32]
    ensures { Filled (λ k x. Soon (soonest_block sheet.now.bytes per_day (block_of position) position.mined k) k x) (count sheet.now.bytes) result }
{
    let n = sheet.count();
    let mut soonest = [0u32; 32];
    for t in 0..n {
        let x = position.slots[t];
        let e = table::above(soonest, sheet, t);
        soonest[t] = soonest_over(sheet, per_day, x.height, position.mined, t, e);
    }
    soonest
}
