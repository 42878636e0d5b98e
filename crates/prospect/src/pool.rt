// What is in the pool for the party, and what is lacking of the others.
ghost use Rattle.std.specs.Prelude.{ℕ, ◌<◌, ◌≡◌, ◌&&◌, ◌||◌, eqb};
ghost use Rattle.laws.specs.Booleans.{pick};
ghost use Rattle.laws.specs.Mask.{without};
ghost use Rattle.laws.specs.Sets.{set_below};
ghost use Rattle.sheet.specs.Field.{count};
ghost use Rattle.sheet.specs.Checked.{Checked};
ghost use Rattle.slots.specs.Slot.{standing, entry_to};
ghost use Rattle.soonest.specs.Forms.Table.{Filled};
ghost use Rattle.slack.specs.Beaten.{destination_of, pooled, signs};
ghost use Rattle.kept.specs.Forms.Evaluation.{within};

use position::Position;
use sheet::field::Sheet;
use sheet::{set, table};
use slots::party;

// The destination for which the party counts on t.
pub fn destination_of(sheet: &Sheet, party: u8, t: usize) -> u8
    requires t_bound { t < count sheet.now.bytes }
    ensures { result ≡ destination_of sheet.now.bytes party t }
{
    if party::is_contract(sheet, t) {
        return 2;
    }
    party
}

// Whether an entry names a destination.
fn names(entry: u8, to: u8) -> bool
    ensures { result ≡ (standing entry && eqb (entry_to entry) to) }
{
    if entry == 0 {
        return false;
    }
    entry - 1 == to
}

// Those that are in the pool for that destination.
pub fn pooled(position: Position, sheet: &Sheet, party: u8) -> u32
    ensures { result ≡ set_below (count sheet.now.bytes) (pooled sheet.now.bytes position party) }
{
    set::below(
        sheet.count(),
        |t| names(position.slots[t].pool, destination_of(sheet, party, t)),
    )
}

// The required signatures that are not given, none where the transaction is in the pool.
fn lack_of(pooled: bool, required: u8, given: u8) -> u32
    ensures { result ≡ pick pooled 0 (without required given) }
{
    if pooled {
        return 0;
    }
    u32::from(required & !given)
}

// What is lacking of each, where `held` are those in the pool, in a table.
pub fn lacks(position: Position, sheet: &Sheet, party: u8, held: u32) -> [u32; 32]
    requires checked { Checked sheet.now.bytes }
    requires held_value { held ≡ set_below (count sheet.now.bytes) (pooled sheet.now.bytes position party) }
    ensures { Filled (λ t v. (know : ℕ) → within v know ≡ (signs sheet.now.bytes position party know t || pooled sheet.now.bytes position party t)) (count sheet.now.bytes) result }
{
    table::filled(sheet.count(), 0, |t| {
        let given = position.slots[t].shared_for(destination_of(sheet, party, t));
        lack_of(set::has(held, t), sheet.required(t), given)
    })
}
