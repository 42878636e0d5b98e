// Conduct, over the guards of a position.
ghost use Rattle.std.specs.Prelude.{◌<◌, ◌≡◌};
ghost use Rattle.laws.specs.Failing.{first_failing};
ghost use Rattle.sheet.specs.Refusal.{refused};
ghost use Rattle.sheet.specs.Field.{count};
ghost use Rattle.steps.specs.Conduct.{may_send, alice_shares_rule, alice_gives_rule, bob_gives_rule, secret_safe_rule, safe_to_send_rule};
ghost use Rattle.steps.specs.Forms.Conduct.{share_allowed_in, give_allowed_in, send_allowed_in, send_held_in};
ghost use Rattle.steps.specs.Tests.{conduct_rule};

use crate::Guards;
use crate::names::{
    LOCK_A, NO_TRANSACTION, REFUND_1, SECRET_ALICE, SECRET_BOB, SIG_ALICE, SPEND_B, SUCCESS_BYTE,
};
use sheet::field::Sheet;
use sheet::refusal::{Refusal, require};
use slots::{party, signatures};

// 13 unless conduct allows the step and its own conditions are met.
pub fn conduct_refusal(allowed: bool, met: bool) -> Result<(), Refusal>
    ensures { refused result ≡ first_failing (conduct_rule allowed met) }
{
    require(allowed && met, Refusal::StepConduct)
}

// Who may send what in which phase: Alice lock_A in phase 1, both anything in phases 2 and 3.
fn may_send(phase: u8, party: u8, t: usize) -> bool
    ensures { result ≡ may_send phase party t }
{
    if party == 0 {
        if phase == 1 {
            return t == LOCK_A;
        }
        return 2 <= phase; // as in phase 3
    }
    if party == 1 {
        return 2 <= phase;
    }
    false
}

impl Guards {
    // Alice's share of success.
    fn alice_shares(self, t: u8) -> bool
        ensures { result ≡ alice_shares_rule self.phase self.refund self.late t }
    {
        if self.phase != 3 { // she shares nothing in phase 2
            return false;
        }
        if t != SUCCESS_BYTE {
            return false;
        }
        !self.refund && !self.late
    }

    // Whether a party may share t, or with no transaction its first shares.
    pub fn share_allowed(self, party: u8, t: u8) -> bool
        ensures { result ≡ share_allowed_in self party t }
    {
        if self.free {
            return true;
        }
        if t == NO_TRANSACTION {
            return self.phase == 0;
        }
        if party != 0 {
            return false;
        }
        self.alice_shares(t)
    }

    // Alice's gift of sig_alice.
    fn alice_gives(self, i: u8) -> bool
        ensures { result ≡ alice_gives_rule self.phase self.knows self.late i }
    {
        if self.phase != 3 { // she gives nothing in phase 2
            return false;
        }
        if i != SIG_ALICE {
            return false;
        }
        self.knows && !self.late
    }

    // Bob's gift of secret_bob.
    fn bob_gives(self, i: u8) -> bool
        ensures { result ≡ bob_gives_rule self.phase self.bob_has self.late i }
    {
        if self.phase < 2 {
            return false;
        }
        if i != SECRET_BOB {
            return false;
        }
        if !signatures::has(self.bob_has, SIG_ALICE) {
            return false;
        }
        if signatures::has(self.bob_has, SECRET_ALICE) {
            return false;
        }
        !self.late
    }

    // Whether a party may give signature i.
    pub fn give_allowed(self, party: u8, i: u8) -> bool
        ensures { result ≡ give_allowed_in self party i }
    {
        if self.free {
            return true;
        }
        if party == 0 {
            return self.alice_gives(i);
        }
        if party == 1 {
            return self.bob_gives(i);
        }
        false
    }

    // Whether Alice sends t although it needs secret_alice.
    fn secret_safe(self, sheet: &Sheet, t: usize) -> bool
        requires t_bound { t < count sheet.now.bytes }
        ensures { result ≡ secret_safe_rule sheet.now.bytes self.knows t }
    {
        if !signatures::has(sheet.required(t), SECRET_ALICE) {
            return true;
        }
        if !self.knows {
            return true;
        }
        t == SPEND_B
    }

    // Whether a careful party sends t.
    fn safe_to_send(self, sheet: &Sheet, party: u8, t: usize) -> bool
        requires t_bound { t < count sheet.now.bytes }
        ensures { result ≡ safe_to_send_rule self.unshared (secret_safe_rule sheet.now.bytes self.knows t) party t }
    {
        if party != 0 {
            return true;
        }
        if t == REFUND_1 {
            return self.unshared;
        }
        self.secret_safe(sheet, t)
    }

    // Whether a party may send t, but for paying first.
    pub fn send_allowed(self, sheet: &Sheet, party: u8, t: usize) -> bool
        requires t_bound { t < count sheet.now.bytes }
        ensures { result ≡ send_allowed_in sheet.now.bytes self party t }
    {
        if self.free {
            return true;
        }
        if !may_send(self.phase, party, t) {
            return false;
        }
        if !self.careful {
            return true;
        }
        self.safe_to_send(sheet, party, t)
    }

    // Whether a party may send t, where `paying` says that it sends no contract transaction.
    pub fn send_held(self, sheet: &Sheet, paying: bool, party: u8, t: usize) -> bool
        requires t_bound { t < count sheet.now.bytes }
        ensures { result ≡ send_held_in sheet.now.bytes self paying party t }
    {
        if !self.send_allowed(sheet, party, t) {
            return false;
        }
        if !paying {
            return true;
        }
        !party::is_contract(sheet, t)
    }
}
