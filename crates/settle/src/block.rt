// The block being filled.
ghost use Rattle.std.specs.Prelude.{◌<◌, ◌≡◌};
ghost use Rattle.laws.specs.Sets.{set_below};
ghost use Rattle.sheet.specs.Field.{count};
ghost use Rattle.position.specs.Position.{in_block};

use position::Position;
use sheet::field::Sheet;
use sheet::set;

// The entries.
pub fn entries(position: Position, sheet: &Sheet) -> u32
    ensures { result ≡ set_below (count sheet.now.bytes) (in_block position) }
{
    set::below(sheet.count(), |t| 0 < position.slots[t].block)
}
