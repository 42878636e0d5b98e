// Whether the party is paid, and what can pay it yet.
ghost use Rattle.std.specs.Prelude.{◌<◌, ◌≡◌, not, ◌&&◌, eqb, ltb, get_or};
ghost use Rattle.std.specs.Int.Bits.{bit_and};
ghost use Rattle.laws.specs.Mask.{bit};
ghost use Rattle.laws.specs.Sets.{set_below};
ghost use Rattle.sheet.specs.Field.{count};
ghost use Rattle.slots.specs.Slot.{entry_to};
ghost use Rattle.slots.specs.Destination.{is_payee};
ghost use Rattle.soonest.specs.Forms.Table.{Filled};
ghost use Rattle.slack.specs.Kept.{paid};

use position::Position;
use readings::report;
use sheet::field::Sheet;
use sheet::{set, table};
use slots::{Slot, party};

// Whether the transaction whose slot is x has paid the party.
fn has_paid(x: Slot, party: u8) -> bool
    ensures { result ≡ (ltb 0 x.height && eqb (entry_to x.confirmed) party) }
{
    if x.height == 0 {
        return false;
    }
    report::entry_to(x.confirmed) == party
}

// Whether one of them has.
pub fn paid(position: Position, sheet: &Sheet, party: u8) -> bool
    ensures { result ≡ paid sheet.now.bytes position party }
{
    (0..sheet.count()).any(|t| has_paid(position.slots[t], party))
}

// Those that pay the party, and are not confirmed.
pub fn awaited(sheet: &Sheet, confirmed: u32, party: u8) -> u32
    ensures { result ≡ set_below (count sheet.now.bytes) (λ t. is_payee sheet.now.bytes t party && not (bit confirmed t)) }
{
    set::below(
        sheet.count(),
        |t| party::is_payee(sheet, t, party) && !set::has(confirmed, t),
    )
}

// Those of a set in the set of each, in a table.
pub fn aims(sheet: &Sheet, sets: [u32; 32], members: u32) -> [u32; 32]
    ensures { Filled (λ t v. v ≡ bit_and (get_or sets t 0) members) (count sheet.now.bytes) result }
{
    table::filled(sheet.count(), 0, |t| sets[t] & members)
}
