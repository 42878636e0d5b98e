// What accepted steps make of a slot: kinds 1 and 4; the first shares.
ghost use Rattle.std.specs.Prelude.{◌<◌, ◌≡◌};
ghost use Rattle.sheet.specs.Field.{count};
ghost use Rattle.slots.specs.Slot.{entry_for, with_block, with_shared, with_mark};
ghost use Rattle.slots.specs.Signatures.{share_mask};
ghost use Rattle.position.specs.Position.{keys};
ghost use Rattle.position.specs.FirstShares.{first_shares};
ghost use Rattle.position.specs.Effect.{share_each};

use crate::{Position, conduct};
use sheet::field::Sheet;
use slots::{Slot, next, signatures};

// No signature.
const NOTHING: u8 = 0;

// The slot x of t after a share by a party with these keys held: what it shares, and its mark.
pub fn shared_slot(sheet: &Sheet, held: u8, party: u8, t: usize, destination: u8, x: Slot) -> Slot
    requires t_bound { t < count sheet.now.bytes }
    requires destination_bound { destination < 4 }
    ensures { result ≡ with_mark party destination (with_shared destination (share_mask sheet.now.bytes held t) x) }
{
    let mask = signatures::share_mask(sheet, held, t);
    let y = x.with_shared(destination, mask);
    y.with_mark(party, destination)
}

// The slot x after a hand-in: it enters the block, and nothing is shared.
pub fn handed_slot(destination: u8, x: Slot) -> Slot
    requires { destination < 4 }
    ensures { result ≡ with_block (entry_for destination) x }
{
    let y = x.with_shared(destination, NOTHING);
    y.with_block(destination + 1)
}

impl Position {
    // The keys that a party holds.
    pub fn keys(self, party: u8) -> u8
        ensures { result ≡ keys self party }
    {
        let k = usize::from(party);
        if k < 6 {
            return self.keys[k];
        }
        0
    }

    // A party's first shares, for the contract. A share changes no key.
    pub fn share_first(mut self, sheet: &Sheet, party: u8) -> Position
        requires bound { 6 < count sheet.now.bytes }
        ensures { result ≡ share_each sheet.now.bytes party (first_shares party) self }
    {
        let set = conduct::first_shares(party);
        let held = self.keys(party);
        for t in next::members(set, 32) {
            let x = self.slots[t];
            let shared = shared_slot(sheet, held, party, t, 2, x);
            self.slots[t] = shared;
        }
        self
    }
}
