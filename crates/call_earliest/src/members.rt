// The transactions of a mask and their ancestors as a set, and a table of their blocks.
ghost use Rattle.std.specs.Prelude.{◌<◌, ◌≡◌};
ghost use Rattle.sheet.specs.Field.{count};
ghost use Rattle.call_earliest.specs.Forms.Table.{members, block_in, table};

use endings::block::earliest_block;
use endings::planned::is_planned;
use sheet::field::Sheet;
use sheet::{set, table};

// All these, as a set.
pub fn members(sheet: &Sheet, mask: u32) -> u32
    ensures { result ≡ members sheet.now.bytes mask }
{
    set::below(sheet.count(), |t| is_planned(sheet, mask, t))
}

// The earliest block of t where it is in the set, else one beyond the last.
fn block_in(sheet: &Sheet, per_day: u16, found: u32, t: usize) -> u32
    requires t_bound { t < count sheet.now.bytes }
    ensures { result ≡ block_in sheet.now.bytes per_day found t }
{
    if set::has(found, t) {
        return earliest_block(sheet, per_day, t);
    }
    10001
}

// A table of these.
pub fn table(sheet: &Sheet, per_day: u16, found: u32) -> [u32; 32]
    ensures { result ≡ table sheet.now.bytes per_day found }
{
    table::filled(sheet.count(), 0, |t| block_in(sheet, per_day, found, t))
}
