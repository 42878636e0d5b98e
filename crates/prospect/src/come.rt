// What can come beside each transaction.
ghost use Rattle.std.specs.Prelude.{◌-◌, ◌<◌, ◌≤◌, ◌≡◌, get_or};
ghost use Rattle.std.specs.Int.Bits.{bit_and};
ghost use Rattle.laws.specs.Sets.{removed};
ghost use Rattle.sheet.specs.Field.{count};
ghost use Rattle.sheet.specs.Checked.{Checked};
ghost use Rattle.soonest.specs.Forms.Table.{Filled};
ghost use Rattle.attainable.specs.Forms.Round.{Attains, AttainsElsewhere};
ghost use Rattle.prospect.specs.Forms.Marks.{comers_in};

use crate::{Marks, rival};
use attainable::{Others, round};
use sheet::field::Sheet;
use sheet::{set, table};

// What can come where the party sends those above each, in a table.
pub fn can(others: Others, sheet: &Sheet, above: [u32; 32]) -> [u32; 32]
    requires { Checked sheet.now.bytes }
    ensures { Filled (λ t v. Attains sheet.now.bytes others (get_or above t 0) v) (count sheet.now.bytes) result }
{
    table::filled(
        sheet.count(),
        0,
        |t| round::attainable(others, sheet, above[t]),
    )
}

// Of these, what can come for another than the party.
pub fn elsewhere(others: Others, sheet: &Sheet, above: [u32; 32], can: [u32; 32]) -> [u32; 32]
    requires checked { Checked sheet.now.bytes }
    requires filled { Filled (λ t v. Attains sheet.now.bytes others (get_or above t 0) v) (count sheet.now.bytes) can }
    ensures { Filled (λ t v. AttainsElsewhere sheet.now.bytes others (get_or above t 0) v) (count sheet.now.bytes) result }
{
    table::filled(
        sheet.count(),
        0,
        |t| round::attainable_elsewhere(others, sheet, above[t], can[t]),
    )
}

// The rivals that come beside each, in a table.
pub fn comers(marks: Marks, can: [u32; 32], elsewhere: [u32; 32]) -> [u32; 32]
    requires { marks.count ≤ 32 }
    ensures { Filled (λ t v. v ≡ comers_in marks (get_or can t 0) (get_or elsewhere t 0) t) marks.count result }
{
    table::filled(
        marks.count,
        0,
        |t| rival::comers(marks, can[t], elsewhere[t], t),
    )
}

// The others of a set that come for nobody else, in a table.
pub fn only(sheet: &Sheet, paying: u32, elsewhere: [u32; 32]) -> [u32; 32]
    ensures { Filled (λ t v. v ≡ removed (bit_and paying (4294967295 - get_or elsewhere t 0)) t) (count sheet.now.bytes) result }
{
    table::filled(sheet.count(), 0, |t| set::remove(paying & !elsewhere[t], t))
}
