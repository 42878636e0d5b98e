// Entries confirmed before their block is mined.
ghost use Rattle.std.specs.Prelude.{◌+◌, ◌<◌, ◌≡◌};
ghost use Rattle.sheet.specs.Field.{count};
ghost use Rattle.steps.specs.Mined.{confirm_entry};
ghost use Rattle.position.specs.Effect.{change_slots};
ghost use Rattle.settle.specs.Forms.Thrown.{confirm_in};

use position::Position;
use sheet::field::Sheet;
use slots::{Slot, next};
use steps::mined;

// The slot x of t with its entry confirmed, as by a mined block that nobody leaves the pool by.
fn confirm_slot(sheet: &Sheet, block: u16, t: usize, x: Slot) -> Slot
    requires t_bound { t < count sheet.now.bytes }
    ensures { result ≡ confirm_entry sheet.now.bytes block t x }
{
    mined::mined_slot(sheet, block, 0, 0, t, x)
}

// The position with the entries of a set confirmed in the next block. The blocks mined stay.
pub fn confirm(mut position: Position, sheet: &Sheet, members: u32) -> Position
    requires mined_bound { position.mined < 65535 }
    ensures { result ≡ change_slots sheet.now.bytes (confirm_in sheet.now.bytes (position.mined + 1) members) position }
{
    let block = position.mined + 1;
    let n = sheet.count();
    for t in next::members(members, n) {
        let x = position.slots[t];
        let y = confirm_slot(sheet, block, t, x);
        position.slots[t] = y;
    }
    position
}
