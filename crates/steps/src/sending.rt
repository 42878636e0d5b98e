// The tests of kinds 3 and 4, over a view, the slot x of the transaction and `since`, its parent's block.
ghost use Rattle.std.specs.Prelude.{◌<◌, ◌≡◌, ltb, leb};
ghost use Rattle.laws.specs.Failing.{first_failing};
ghost use Rattle.sheet.specs.Refusal.{refused};
ghost use Rattle.sheet.specs.Field.{count};
ghost use Rattle.sheet.specs.LockHeight.{lock_height};
ghost use Rattle.sheet.specs.Checked.{Checked, Fit};
ghost use Rattle.slots.specs.Forms.Expiring.{deadline_by};
ghost use Rattle.slots.specs.Slot.{entry_for, with_pool, with_shared};
ghost use Rattle.slots.specs.Signatures.{exposed_mask};
ghost use Rattle.steps.specs.Forms.View.{sent_set, placed_set, keys_in, sender_in};
ghost use Rattle.steps.specs.Forms.Conduct.{send_allowed_in};
ghost use Rattle.steps.specs.Forms.Sending.{send_tests_in, pool_tests_in, miner_tests_in, pays_in};

use crate::{Guards, View, parent};
use sheet::field::Sheet;
use sheet::refusal::{Refusal, require};
use slots::{Slot, conflict, expiring, lock_height, party, signatures};

impl View {
    // The transactions in the pool or confirmed.
    pub fn sent(self) -> u32
        ensures { result ≡ sent_set self }
    {
        self.pool | self.confirmed
    }

    // The transactions in the block or confirmed.
    pub fn placed(self) -> u32
        ensures { result ≡ placed_set self }
    {
        self.block | self.confirmed
    }

    // The keys that a party holds.
    pub fn keys(self, party: u8) -> u8
        ensures { result ≡ keys_in self party }
    {
        let k = usize::from(party);
        if k < 6 {
            return self.keys[k];
        }
        0
    }

    // What a sender has of a transaction whose slot is x.
    pub fn sender(self, sheet: &Sheet, x: Slot, party: u8, destination: u8) -> u8
        ensures { result ≡ sender_in sheet.now.bytes self x party destination }
    {
        let secrets = sheet.secrets() & self.shared;
        signatures::sender_mask(self.keys(party), secrets, x.shared_for(destination))
    }
}

// Whether the lock of t is reached: it lies below the next block.
fn unlocked(sheet: &Sheet, per_day: u16, since: u16, mined: u16, t: usize) -> bool
    requires t_bound { t < count sheet.now.bytes }
    ensures { result ≡ leb (lock_height sheet.now.bytes per_day (λ k. since) t) mined }
{
    lock_height::lock_height(sheet, per_day, since, t) < u32::from(mined) + 1
}

// Whether the deadline of t is ahead, where `expiring` are those that can have one.
fn in_time(sheet: &Sheet, per_day: u16, expiring: u32, since: u16, mined: u16, t: usize) -> bool
    requires t_bound { t < count sheet.now.bytes }
    ensures { result ≡ ltb mined (deadline_by sheet.now.bytes per_day expiring since t) }
{
    u32::from(mined) < expiring::deadline_by(sheet, per_day, expiring, since, t)
}

// The first that fails of the tests that kinds 3 and 4 share, the lock before the signatures.
fn send_refusal(
    sheet: &Sheet,
    per_day: u16,
    allowed: bool,
    members: u32,
    have: u8,
    since: u16,
    mined: u16,
    t: usize,
) -> Result<(), Refusal>
    requires checked { Checked sheet.now.bytes }
    requires t_bound { t < count sheet.now.bytes }
    ensures { refused result ≡ first_failing (send_tests_in allowed sheet.now.bytes per_day members have since mined t) }
{
    require(allowed, Refusal::StepConduct)?;
    require(
        !conflict::conflict_in(sheet, members, t),
        Refusal::StepConflict,
    )?;
    require(parent::parent_there(sheet, members, t), Refusal::StepParent)?;
    require(unlocked(sheet, per_day, since, mined, t), Refusal::StepLock)?;
    require(signatures::signed(sheet, have, t), Refusal::StepSignatures)
}

// The first test of kind 3 that fails.
pub fn pool_refusal(
    sheet: &Sheet,
    setup: &[u8],
    view: View,
    allowed: bool,
    x: Slot,
    since: u16,
    party: u8,
    t: usize,
    destination: u8,
) -> Result<(), Refusal>
    requires fit { Fit sheet.now.bytes setup.now }
    requires t_bound { t < count sheet.now.bytes }
    ensures { refused result ≡ first_failing (pool_tests_in allowed sheet.now.bytes setup.now view x since party t destination) }
{
    let per_day = sheet::setup::per_day(setup);
    let have = view.sender(sheet, x, party, destination);
    send_refusal(
        sheet,
        per_day,
        allowed,
        view.sent(),
        have,
        since,
        view.mined,
        t,
    )?;
    require(
        in_time(sheet, per_day, view.expiring, since, view.mined, t),
        Refusal::StepDeadline,
    )
}

// The first test of kind 4 that fails.
pub fn miner_refusal(
    sheet: &Sheet,
    setup: &[u8],
    view: View,
    allowed: bool,
    x: Slot,
    since: u16,
    party: u8,
    t: usize,
    destination: u8,
) -> Result<(), Refusal>
    requires fit { Fit sheet.now.bytes setup.now }
    requires t_bound { t < count sheet.now.bytes }
    ensures { refused result ≡ first_failing (miner_tests_in allowed sheet.now.bytes setup.now view x since party t destination) }
{
    require(sheet::setup::stealth(setup) == 1, Refusal::StepStealth)?;
    let have = view.sender(sheet, x, party, destination);
    send_refusal(
        sheet,
        sheet::setup::per_day(setup),
        allowed,
        view.placed(),
        have,
        since,
        view.mined,
        t,
    )
}

// The slot x of t after a send to the pool: it waits there, and what it exposes is shared.
pub fn sent_slot(sheet: &Sheet, t: usize, destination: u8, x: Slot) -> Slot
    requires t_bound { t < count sheet.now.bytes }
    requires destination_bound { destination < 4 }
    ensures { result ≡ with_pool (entry_for destination) (with_shared destination (exposed_mask sheet.now.bytes t) x) }
{
    let mask = signatures::exposed_mask(sheet, t);
    let shared = x.with_shared(destination, mask);
    shared.with_pool(destination + 1)
}

// Whether t pays the party and can be sent by it, by kind 3 or by kind 4. A parent that is nowhere rules out both.
pub fn pays(
    sheet: &Sheet,
    setup: &[u8],
    view: View,
    o: Guards,
    x: Slot,
    since: u16,
    party: u8,
    t: usize,
) -> bool
    requires fit { Fit sheet.now.bytes setup.now }
    requires t_bound { t < count sheet.now.bytes }
    ensures { result ≡ pays_in (send_allowed_in sheet.now.bytes o party t) sheet.now.bytes setup.now view x since party t }
{
    if !party::is_payee(sheet, t, party) {
        return false;
    }
    if !parent::parent_there(sheet, view.pool | view.placed(), t) {
        return false;
    }
    let allowed = o.send_allowed(sheet, party, t);
    if pool_refusal(sheet, setup, view, allowed, x, since, party, t, party).is_ok() {
        return true;
    }
    miner_refusal(sheet, setup, view, allowed, x, since, party, t, party).is_ok()
}
