// A table of signature masks in a wider type.
ghost use Rattle.std.specs.Prelude.{◌<◌, ◌≡◌, get_or};
ghost use Rattle.sheet.specs.Field.{count};
ghost use Rattle.soonest.specs.Forms.Table.{Filled};

use sheet::field::Sheet;
use sheet::table;

pub fn widened(masks: [u8; 32], sheet: &Sheet) -> [u32; 32]
    ensures { Filled (λ t v. v ≡ get_or masks t 0) (count sheet.now.bytes) result }
{
    table::filled(sheet.count(), 0, |t| u32::from(masks[t]))
}
