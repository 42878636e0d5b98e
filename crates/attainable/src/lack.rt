// What the others lack of a transaction.
ghost use Rattle.std.specs.Prelude.{◌<◌, ◌≡◌};
ghost use Rattle.std.specs.Int.Bits.{bit_or};
ghost use Rattle.laws.specs.Mask.{bit};
ghost use Rattle.sheet.specs.Field.{count};
ghost use Rattle.sheet.specs.Checked.{Checked};
ghost use Rattle.slots.specs.Slot.{shared_for};
ghost use Rattle.position.specs.Position.{slot};
ghost use Rattle.soonest.specs.Forms.Table.{Filled};
ghost use Rattle.attainable.specs.Forms.Others.{Lacks};

use position::Position;
use sheet::field::Sheet;
use sheet::{set, table};
use steps::decode;

// Above every mask of signatures.
const UNMET: u16 = 256;

// What is lacking of t for a destination, where `held` is what the others have of all, and `given` what is shared of t for it.
fn lack_of(
    sheet: &Sheet,
    barred: bool,
    party: u8,
    held: u8,
    given: u8,
    destination: u8,
    t: usize,
) -> u16
    requires checked { Checked sheet.now.bytes }
    requires t_bound { t < count sheet.now.bytes }
    ensures { Lacks sheet.now.bytes barred party (bit_or held given) destination t result }
{
    if barred {
        return UNMET;
    }
    if !decode::shares_to(sheet, t, destination) {
        return UNMET;
    }
    if destination == party {
        return UNMET;
    }
    u16::from(sheet.required(t) & !(held | given))
}

// What the others lack of each transaction for a destination, where `unsent` are those that they never send.
pub fn lacks(
    position: Position,
    sheet: &Sheet,
    unsent: u32,
    party: u8,
    held: u8,
    destination: u8,
) -> [u16; 32]
    requires { Checked sheet.now.bytes }
    ensures { Filled (λ t v. Lacks sheet.now.bytes (bit unsent t) party (bit_or held (shared_for (slot position t) destination)) destination t v) (count sheet.now.bytes) result }
{
    table::filled(sheet.count(), 0, |t| {
        let given = position.slots[t].shared_for(destination);
        lack_of(
            sheet,
            set::has(unsent, t),
            party,
            held,
            given,
            destination,
            t,
        )
    })
}
