// Whom a transaction can come to pay, itself or by one below it.
ghost use Rattle.std.specs.Prelude.{◌<◌, ◌≡◌};
ghost use Rattle.laws.specs.Booleans.{pick};
ghost use Rattle.laws.specs.Mask.{bit};
ghost use Rattle.sheet.specs.Field.{count, payees};
ghost use Rattle.slots.specs.Forms.Line.{line_set};
ghost use Rattle.soonest.specs.Forms.Table.{Filled};
ghost use Rattle.call_outage.specs.Forms.Row.{payees_in};

use sheet::field::Sheet;
use sheet::set;
use soonest::table;

// The lines of all transactions as sets, in a table.
pub fn lines(sheet: &Sheet) -> [u32; 32]
    ensures { Filled (λ k x. x ≡ line_set sheet.now.bytes k) (count sheet.now.bytes) result }
{
    let mut lines = [0u32; 32];
    for t in 0..sheet.count() {
        lines[t] = set::join(table::above(lines, sheet, t), true, t);
    }
    lines
}

// The payees of k, whose line is given, where t is of it.
fn payees_at(sheet: &Sheet, line: u32, t: usize, k: usize) -> u8
    requires t_bound { t < count sheet.now.bytes }
    requires k_bound { k < count sheet.now.bytes }
    ensures { result ≡ pick (bit line t) (payees sheet.now.bytes k) 0 }
{
    if set::has(line, t) {
        return sheet.payees(k);
    }
    0
}

// The payees of t and of every transaction below it.
pub fn payees_below(sheet: &Sheet, lines: [u32; 32], t: usize) -> u8
    requires t_bound { t < count sheet.now.bytes }
    ensures { result ≡ payees_in sheet.now.bytes lines t }
{
    let mut found: u8 = 0;
    for k in 0..sheet.count() {
        found = found | payees_at(sheet, lines[k], t, k);
    }
    found
}
