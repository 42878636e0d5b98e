// What can come and has the next block for its deadline.
ghost use Rattle.std.specs.Prelude.{◌<◌, ◌≡◌};
ghost use Rattle.laws.specs.Sets.{set_below};
ghost use Rattle.sheet.specs.Field.{count};
ghost use Rattle.sheet.specs.Checked.{Fit};
ghost use Rattle.settle.specs.Forms.Thrown.{is_due};

use position::Position;
use sheet::field::Sheet;
use sheet::set;

// Whether t is of the set `can` and its deadline is the next block.
fn is_due(position: Position, sheet: &Sheet, setup: &[u8], can: u32, t: usize) -> bool
    requires fit { Fit sheet.now.bytes setup.now }
    requires t_bound { t < count sheet.now.bytes }
    ensures { result ≡ is_due sheet.now.bytes setup.now position can t }
{
    if set::has(can, t) {
        return position.deadline_in(sheet, setup, t) == u32::from(position.mined) + 1;
    }
    false
}

// Those that are.
pub fn due(position: Position, sheet: &Sheet, setup: &[u8], can: u32) -> u32
    requires { Fit sheet.now.bytes setup.now }
    ensures { result ≡ set_below (count sheet.now.bytes) (is_due sheet.now.bytes setup.now position can) }
{
    set::below(sheet.count(), |t| is_due(position, sheet, setup, can, t))
}
