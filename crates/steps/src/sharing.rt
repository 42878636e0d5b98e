// The conditions of kinds 1 and 2.
ghost use Rattle.std.specs.Prelude.{◌<◌, ◌≡◌};
ghost use Rattle.sheet.specs.Field.{count};
ghost use Rattle.laws.specs.Mask.{bit};
ghost use Rattle.steps.specs.Tests.{give_met_rule};
ghost use Rattle.steps.specs.Forms.Sharing.{share_met_in};

use sheet::field::Sheet;
use slots::{Slot, signatures};

// Whether a share of t is new and not empty, for a party that holds `held`.
pub fn share_met(sheet: &Sheet, held: u8, x: Slot, party: u8, t: usize, destination: u8) -> bool
    requires t_bound { t < count sheet.now.bytes }
    requires destination_bound { destination < 4 }
    ensures { result ≡ share_met_in sheet.now.bytes held x party t destination }
{
    if x.marked_for(party, destination) {
        return false;
    }
    signatures::share_mask(sheet, held, t) != 0
}

// Whether the giver holds signature i and the receiver doesn't.
pub fn give_met(giver: u8, receiver: u8, i: u8) -> bool
    requires { i < 8 }
    ensures { result ≡ give_met_rule (bit giver i) (bit receiver i) }
{
    if signatures::has(giver, i) {
        return !signatures::has(receiver, i);
    }
    false
}
