// What the party knows when each transaction is next.
ghost use Rattle.std.specs.Prelude.{◌<◌, ◌≡◌, get_or};
ghost use Rattle.std.specs.Int.Bits.{bit_or};
ghost use Rattle.laws.specs.Sets.{set_below};
ghost use Rattle.sheet.specs.Field.{count};
ghost use Rattle.sheet.specs.Checked.{Checked};
ghost use Rattle.soonest.specs.Forms.Table.{Filled};
ghost use Rattle.attainable.specs.Forms.Round.{shown_in};
ghost use Rattle.slack.specs.Beaten.{signs};

use crate::pool;
use attainable::round;
use position::Position;
use sheet::field::Sheet;
use sheet::{set, table};
use slots::signatures;

// What is known by those above each, in a table.
pub fn known(shows: [u8; 32], sheet: &Sheet, have: u8, above: [u32; 32]) -> [u8; 32]
    ensures { Filled (λ t v. v ≡ bit_or have (shown_in sheet.now.bytes shows (get_or above t 0))) (count sheet.now.bytes) result }
{
    table::filled(
        sheet.count(),
        0,
        |t| have | round::shown(shows, sheet, above[t]),
    )
}

// Those that the party can sign with what it knows.
pub fn signs(position: Position, sheet: &Sheet, party: u8, known: [u8; 32]) -> u32
    requires { Checked sheet.now.bytes }
    ensures { result ≡ set_below (count sheet.now.bytes) (λ t. signs sheet.now.bytes position party (get_or known t 0) t) }
{
    set::below(sheet.count(), |t| {
        let given = position.slots[t].shared_for(pool::destination_of(sheet, party, t));
        signatures::signed(sheet, known[t] | given, t)
    })
}
