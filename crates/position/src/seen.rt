// The view of a position carried from step to step.
ghost use Rattle.std.specs.Prelude.{◌<◌, ◌≡◌};
ghost use Rattle.laws.specs.Mask.{bit};
ghost use Rattle.sheet.specs.Field.{count};
ghost use Rattle.sheet.specs.Checked.{Checked};
ghost use Rattle.position.specs.Forms.Seen.{changed_set, refined_set, lowest, view_kept, view_joined};

use crate::Position;
use crate::conduct::BOB_FIRST;
use sheet::field::Sheet;
use slots::next;
use steps::{View, mined};

// The slots that an accepted step of this kind and transaction byte may have changed: none by a gift and an empty block; by a block with
// entries and a bump those of what was in the pool or in the block; by the first shares those of either party.
pub fn changed_set(view: View, kind: u8, t: u8) -> u32
    ensures { result ≡ changed_set view kind t }
{
    if kind == 6 {
        if view.block == 0 {
            return 0;
        }
        return view.pool | view.block;
    }
    if kind == 7 {
        return view.pool | view.block;
    }
    if kind == 2 {
        return 0;
    }
    if t < 32 {
        return 1u32 << t;
    }
    BOB_FIRST
}

// Of these, those that a mined block may have changed, or all.
pub fn refined(sheet: &Sheet, view: View, kind: u8, members: u32) -> u32
    requires { Checked sheet.now.bytes }
    ensures { result ≡ refined_set sheet.now.bytes view kind members }
{
    if kind == 6 {
        return mined::affected(view, mined::conflicted(sheet, view));
    }
    members
}

// The least member of a set, 0 where it has none.
pub fn lowest(set: u32) -> usize
    ensures { (result ≡ lowest set) × (result < 32) }
{
    let k = u32::trailing_zeros(set) as usize;
    if k < 32 {
        return k;
    }
    0
}

impl Position {
    // What a view keeps over a step to this position, with the members of a set outside which no slot changed.
    pub fn view_over(self, sheet: &Sheet, view: View, members: u32) -> View
        ensures { result ≡ view_joined (count sheet.now.bytes) (bit members) self (view_kept view members self) }
    {
        let n = sheet.count();
        let keys = self.keys;
        let mut v = View {
            pool: view.pool & !members,
            block: view.block & !members,
            confirmed: view.confirmed,
            expiring: view.expiring,
            mined: self.mined,
            shared: view.shared,
            keys,
        };
        for k in next::members(members, n) {
            let x = self.slots[k];
            let w = v.add(k, x);
            v = w;
        }
        v
    }
}
