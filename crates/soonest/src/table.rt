// Tables over the sheet: a number for each transaction, parents first.
ghost use Rattle.std.specs.Prelude.{◌<◌, ◌≡◌};
ghost use Rattle.sheet.specs.Field.{count};
ghost use Rattle.soonest.specs.Forms.Table.{table_above};

use sheet::field::Sheet;

// What stands for the parent of t, 0 for an opening.
pub fn above(table: [u32; 32], sheet: &Sheet, t: usize) -> u32
    requires t_bound { t < count sheet.now.bytes }
    ensures { result ≡ table_above sheet.now.bytes table t }
{
    let up = sheet.parent(t);
    if up < t {
        return table[up];
    }
    0
}
