// Whether a transaction is open, over a view, its slot x and `since`, its parent's block.
ghost use Rattle.std.specs.Prelude.{◌<◌, ◌≡◌, true, leb};
ghost use Rattle.laws.specs.Below.{any_below};
ghost use Rattle.laws.specs.Mask.{bit};
ghost use Rattle.sheet.specs.Field.{parties, party_at, count};
ghost use Rattle.sheet.specs.LockHeight.{never, lock_height};
ghost use Rattle.sheet.specs.Checked.{Checked};
ghost use Rattle.slots.specs.Ancestry.{has_parent};
ghost use Rattle.dated.specs.Forms.Opens.{at_hand_in, opens_in, stays, first_open_in};

use sheet::field::Sheet;
use slots::lock_height::NEVER;
use slots::{Slot, conflict, lock_height, party, signatures};
use steps::{View, parent};

// Whether the signatures of t are at hand for a party: for the contract, or for itself as a payee.
fn at_hand(sheet: &Sheet, view: View, x: Slot, t: usize, party: u8) -> bool
    requires checked { Checked sheet.now.bytes }
    requires t_bound { t < count sheet.now.bytes }
    ensures { result ≡ at_hand_in sheet.now.bytes view x t party }
{
    if party::is_contract(sheet, t) {
        return signatures::signed(sheet, view.sender(sheet, x, party, 2), t);
    }
    if !party::is_payee(sheet, t, party) {
        return false;
    }
    signatures::signed(sheet, view.sender(sheet, x, party, party), t)
}

// For some party.
fn at_hand_of_some(sheet: &Sheet, view: View, x: Slot, t: usize) -> bool
    requires checked { Checked sheet.now.bytes }
    requires t_bound { t < count sheet.now.bytes }
    ensures { result ≡ any_below (parties sheet.now.bytes) (λ k. at_hand_in sheet.now.bytes view x t (party_at k)) }
{
    let n = sheet.parties();
    (0..n).any(|k| at_hand(sheet, view, x, t, sheet::field::party_at(k)))
}

// Whether the lock of t is reached.
fn lock_reached(sheet: &Sheet, per_day: u16, since: u16, mined: u16, t: usize) -> bool
    requires t_bound { t < count sheet.now.bytes }
    ensures { result ≡ leb (lock_height sheet.now.bytes per_day (λ k. since) t) mined }
{
    lock_height::lock_height(sheet, per_day, since, t) <= u32::from(mined)
}

// Whether t, whose parent is confirmed or which has none, is open. The search for a rival takes longest.
fn opens(sheet: &Sheet, per_day: u16, view: View, x: Slot, since: u16, t: usize) -> bool
    requires checked { Checked sheet.now.bytes }
    requires t_bound { t < count sheet.now.bytes }
    requires t_value { has_parent sheet.now.bytes (bit view.confirmed) t ≡ true }
    ensures { result ≡ opens_in sheet.now.bytes per_day view x since t }
{
    if !lock_reached(sheet, per_day, since, view.mined, t) {
        return false;
    }
    if !at_hand_of_some(sheet, view, x, t) {
        return false;
    }
    !conflict::conflict_in(sheet, view.confirmed, t)
}

// Whether the count c of t stays, whatever its slot: it has one, or its parent is not confirmed.
pub fn stays(sheet: &Sheet, view: View, t: usize, c: u32) -> bool
    requires t_bound { t < count sheet.now.bytes }
    ensures { result ≡ stays sheet.now.bytes view t c }
{
    if c != NEVER {
        return true;
    }
    !parent::parent_there(sheet, view.confirmed, t)
}

// The count of another transaction t once this is seen: the blocks mined, where it is open.
pub fn first_open(sheet: &Sheet, per_day: u16, view: View, x: Slot, since: u16, t: usize) -> u32
    requires checked { Checked sheet.now.bytes }
    requires t_bound { t < count sheet.now.bytes }
    requires t_value { has_parent sheet.now.bytes (bit view.confirmed) t ≡ true }
    ensures { result ≡ first_open_in sheet.now.bytes per_day view x since t never }
{
    if !opens(sheet, per_day, view, x, since, t) {
        return NEVER;
    }
    view.mined as u32
}
