// Parties and destinations by number, and the payees of a transaction.
ghost use Rattle.std.specs.Prelude.{◌<◌, ◌≤◌, ◌≡◌, MatchOption};
ghost use Rattle.sheet.specs.Field.{count};
ghost use Rattle.slots.specs.Destination.{destination_number, is_payee, is_contract};

use crate::{Destination, signatures};
use sheet::field;
use sheet::field::Sheet;

// A destination's number.
impl From<Destination> for u8 {
    ghost from_gives = { λ to number. (number ≡ destination_number to) × (number < 4) };

    #[tactic(auto, unfolding(crate::specs::Destination::destination_number))]
    fn from(to: Destination) -> u8 {
        match to {
            Destination::Alice => 0,
            Destination::Bob => 1,
            Destination::Contract => 2,
            Destination::Carol => 3,
        }
    }
}

impl Destination {
    // The destination of a number, if there is one.
    #[tactic(auto, unfolding(crate::specs::Destination::destination_number))]
    pub fn from_number(number: u8) -> Option<Destination>
        ensures { MatchOption result (4 ≤ number) (λ to. destination_number to ≡ number) }
    {
        match number {
            0 => Some(Destination::Alice),
            1 => Some(Destination::Bob),
            2 => Some(Destination::Contract),
            3 => Some(Destination::Carol),
            _ => None,
        }
    }
}

// Whether a party is a payee of t: its bit is that of its place.
pub fn is_payee(sheet: &Sheet, t: usize, party: u8) -> bool
    requires t_bound { t < count sheet.now.bytes }
    ensures { result ≡ is_payee sheet.now.bytes t party }
{
    if !sheet.is_party(party) {
        return false;
    }
    signatures::has(sheet.payees(t), field::place(party))
}

// Whether t is a contract transaction.
pub fn is_contract(sheet: &Sheet, t: usize) -> bool
    requires t_bound { t < count sheet.now.bytes }
    ensures { result ≡ is_contract sheet.now.bytes t }
{
    sheet.payees(t) == 0
}
