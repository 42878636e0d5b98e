// Conduct in a position.
ghost use Rattle.std.specs.Prelude.{◌<◌, ◌≡◌, not, ◌&&◌, ◌||◌, ltb, length};
ghost use Rattle.laws.specs.Failing.{first_failing};
ghost use Rattle.sheet.specs.Refusal.{refused};
ghost use Rattle.sheet.specs.Field.{count};
ghost use Rattle.sheet.specs.Checked.{Fit};
ghost use Rattle.slots.specs.Slot.{standing};
ghost use Rattle.slots.specs.Destination.{is_contract};
ghost use Rattle.steps.specs.Names.{lock_a, lock_b};
ghost use Rattle.steps.specs.Tests.{conduct_rule};
ghost use Rattle.position.specs.Position.{slot};
ghost use Rattle.position.specs.FirstShares.{first_shares_made};
ghost use Rattle.position.specs.Forms.FirstShares.{first_set, is_early};
ghost use Rattle.position.specs.Conduct.{is_open, is_careful, phase, late, may_share, may_give, can_pay, send_allowed};
ghost use Rattle.position.specs.Forms.Guards.{guards, send_guards};
ghost use Rattle.position.specs.Forms.View.{view_below};

use crate::Position;
use sheet::field::Sheet;
use sheet::refusal::{Refusal, require};
use slots::{Slot, next, party, signatures};
use steps::names::{LOCK_A, LOCK_B, NO_TRANSACTION, REFUND_1, SECRET_BOB, SUCCESS};
use steps::{Guards, View, conduct, sending};

// Whether a transaction is in the pool or confirmed.
fn is_sent(x: Slot) -> bool
    ensures { result ≡ (standing x.pool || ltb 0 x.height) }
{
    if 0 < x.pool {
        return true;
    }
    0 < x.height
}

// Each party's first shares as a set: Alice's revoke and timeout; Bob's also refund_1 and refund_2.
pub const ALICE_FIRST: u32 = 80;

pub const BOB_FIRST: u32 = 120;

// The ways of conduct, and the destination of a contract transaction.
const OPEN: u8 = 0;

const CAREFUL: u8 = 2;

const CONTRACT: u8 = 2;

// A party's first shares.
pub fn first_shares(party: u8) -> u32
    ensures { result ≡ first_set party }
{
    if party == 0 {
        return ALICE_FIRST;
    }
    BOB_FIRST
}

// Whether a party is Alice or Bob, and neither lock, whose slots a and b are, is confirmed.
pub fn is_early(party: u8, a: Slot, b: Slot) -> bool
    ensures { result ≡ is_early party a b }
{
    if 2 <= party {
        return false;
    }
    if a.height != 0 {
        return false;
    }
    b.height == 0
}

// Whether t is one that a party sends only where it can send none that pays it: a contract transaction under careful conduct.
pub fn pays_first(sheet: &Sheet, setup: &[u8], t: usize) -> bool
    requires fit { Fit sheet.now.bytes setup.now }
    requires t_bound { t < count sheet.now.bytes }
    ensures { result ≡ (is_careful setup.now && is_contract sheet.now.bytes t) }
{
    if sheet::setup::conduct(setup) != CAREFUL {
        return false;
    }
    party::is_contract(sheet, t)
}

impl Position {
    // Whether a party's first shares are made, for the contract.
    pub fn first_shares_made(self, party: u8) -> bool
        ensures { result ≡ first_shares_made self party }
    {
        let set = first_shares(party);
        next::members(set, 32).all(|t| {
            let x = self.slots[t];
            x.marked_for(party, CONTRACT)
        })
    }

    // The phase: by lock_B, lock_A, and the first shares.
    pub fn phase(self) -> u8
        ensures { result ≡ phase self }
    {
        if 0 < self.block_of(LOCK_B) {
            return 3;
        }
        if 0 < self.block_of(LOCK_A) {
            return 2;
        }
        if !self.first_shares_made(0) {
            return 0;
        }
        if !self.first_shares_made(1) {
            return 0;
        }
        1
    }

    // Whether the deadline of success is reached.
    pub fn late(self, sheet: &Sheet, setup: &[u8]) -> bool
        requires fit { Fit sheet.now.bytes setup.now }
        requires bound { 2 < count sheet.now.bytes }
        ensures { result ≡ late sheet.now.bytes setup.now self }
    {
        self.deadline_in(sheet, setup, SUCCESS) <= u32::from(self.mined)
    }

    // What conduct reads off the position.
    pub fn guards(self, sheet: &Sheet, setup: &[u8], view: View) -> Guards
        requires fit { Fit sheet.now.bytes setup.now }
        requires view_value { view ≡ view_below sheet.now.bytes (count sheet.now.bytes) self }
        ensures { result ≡ guards sheet.now.bytes setup.now self }
    {
        let way = sheet::setup::conduct(setup);
        if way == OPEN {
            return Guards {
                free: true,
                careful: false,
                phase: 0,
                late: false,
                refund: false,
                unshared: false,
                knows: false,
                bob_has: 0,
            };
        }
        let success = self.slots[SUCCESS];
        let refund = self.slots[REFUND_1];
        Guards {
            free: false,
            careful: way == CAREFUL,
            phase: self.phase(),
            late: self.late(sheet, setup),
            refund: is_sent(refund),
            unshared: success.contract == 0,
            knows: signatures::has(self.keys(0), SECRET_BOB),
            bob_has: view.sender(sheet, success, 1, CONTRACT),
        }
    }

    // What of it sends ask for.
    fn send_guards(self, setup: &[u8]) -> Guards
        requires { length setup.now ≡ 4 }
        ensures { result ≡ send_guards setup.now self }
    {
        let way = sheet::setup::conduct(setup);
        let success = self.slots[SUCCESS];
        Guards {
            free: way == OPEN,
            careful: way == CAREFUL,
            phase: self.phase(),
            late: false,
            refund: false,
            unshared: success.contract == 0,
            knows: signatures::has(self.keys(0), SECRET_BOB),
            bob_has: 0,
        }
    }

    // Whether a party can send a transaction that pays it.
    pub fn can_pay(self, sheet: &Sheet, setup: &[u8], view: View, party: u8) -> bool
        requires fit { Fit sheet.now.bytes setup.now }
        requires view_value { view ≡ view_below sheet.now.bytes (count sheet.now.bytes) self }
        ensures { result ≡ can_pay sheet.now.bytes setup.now self party }
    {
        let o = self.send_guards(setup);
        (0..sheet.count()).any(|t| {
            let x = self.slots[t];
            let since = self.since(sheet, t);
            sending::pays(sheet, setup, view, o, x, since, party, t)
        })
    }

    // Whether conduct allows a party to send t, but for paying first.
    pub fn may_send(self, sheet: &Sheet, setup: &[u8], party: u8, t: usize) -> bool
        requires fit { Fit sheet.now.bytes setup.now }
        requires t_bound { t < count sheet.now.bytes }
        ensures { result ≡ send_allowed sheet.now.bytes setup.now self party t }
    {
        let o = self.send_guards(setup);
        o.send_allowed(sheet, party, t)
    }

    // Whether conduct allows a party to share t, or with no transaction its first shares.
    pub fn may_share(self, sheet: &Sheet, setup: &[u8], view: View, party: u8, t: u8) -> bool
        requires fit { Fit sheet.now.bytes setup.now }
        requires view_value { view ≡ view_below sheet.now.bytes (count sheet.now.bytes) self }
        ensures { result ≡ (is_open setup.now || may_share sheet.now.bytes setup.now self party t) }
    {
        let o = self.guards(sheet, setup, view);
        o.share_allowed(party, t)
    }

    // 13 unless conduct allows a party its first shares and they are not made. An early one needs nothing else.
    pub fn first_refusal(
        self,
        sheet: &Sheet,
        setup: &[u8],
        view: View,
        early: bool,
        party: u8,
    ) -> Result<(), Refusal>
        requires fit { Fit sheet.now.bytes setup.now }
        requires view_value { view ≡ view_below sheet.now.bytes (count sheet.now.bytes) self }
        requires early_value { early ≡ is_early party (slot self lock_a) (slot self lock_b) }
        ensures { refused result ≡ first_failing (conduct_rule (is_open setup.now || may_share sheet.now.bytes setup.now self party 255) (not (first_shares_made self party))) }
    {
        require(!self.first_shares_made(party), Refusal::StepConduct)?;
        if early {
            return Ok(());
        }
        let allowed = self.may_share(sheet, setup, view, party, NO_TRANSACTION);
        conduct::conduct_refusal(allowed, true)
    }

    // Whether conduct allows a party to give signature i.
    pub fn may_give(self, sheet: &Sheet, setup: &[u8], view: View, party: u8, i: u8) -> bool
        requires fit { Fit sheet.now.bytes setup.now }
        requires view_value { view ≡ view_below sheet.now.bytes (count sheet.now.bytes) self }
        ensures { result ≡ (is_open setup.now || may_give sheet.now.bytes setup.now self party i) }
    {
        let o = self.guards(sheet, setup, view);
        o.give_allowed(party, i)
    }
}
