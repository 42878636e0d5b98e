// The steps: one method for each kind.
ghost use Rattle.std.specs.Prelude.{◌<◌, ◌≡◌, true};
ghost use Rattle.sheet.specs.Field.{count};
ghost use Rattle.sheet.specs.Checked.{Fit};
ghost use Rattle.slots.specs.declared.Step.TheVariants.{Share, Give, SendToPool, HandToMiner, Include, Mine, Bump};
ghost use Rattle.steps.specs.Names.{lock_a, lock_b};
ghost use Rattle.position.specs.Position.{slot};
ghost use Rattle.position.specs.Forms.FirstShares.{is_early, shareable};
ghost use Rattle.position.specs.Play.{take_step};
ghost use Rattle.position.specs.Forms.Owed.{soonest_due};
ghost use Rattle.position.specs.Forms.View.{view_below};

use crate::conduct::{is_early, pays_first};
use crate::{Position, Stepped, effect, outcome};
use sheet::field::Sheet;
use sheet::refusal;
use slots::Destination;
use steps::names::{LOCK_A, LOCK_B, NO_TRANSACTION};
use steps::{View, conduct, mining, owed, sending, sharing};

impl Position {
    // 1 Share: of one transaction, or with none of the party's first shares.
    pub fn share(
        mut self,
        sheet: &Sheet,
        setup: &[u8],
        view: View,
        party: u8,
        t: u8,
        to: Destination,
    ) -> Stepped
        requires fit { Fit sheet.now.bytes setup.now }
        requires view_value { view ≡ view_below sheet.now.bytes (count sheet.now.bytes) self }
        requires t_value { shareable sheet.now.bytes t ≡ true }
        ensures { result ≡ take_step sheet.now.bytes setup.now self (Share party t to) }
    {
        if t == NO_TRANSACTION {
            let a = self.slots[LOCK_A];
            let b = self.slots[LOCK_B];
            let early = is_early(party, a, b);
            return self.share_all(sheet, setup, view, early, party, to);
        }
        let destination = u8::from(to);
        let k = usize::from(t);
        let allowed = sheet::setup::conduct(setup) == 0
            || self.may_share(sheet, setup, view, party, t);
        let held = view.keys(party);
        let x = self.slots[k];
        let met = sharing::share_met(sheet, held, x, party, k, destination);
        let refusal = refusal::number_of(conduct::conduct_refusal(allowed, met));
        let shared = effect::shared_slot(sheet, held, party, k, destination, x);
        let after = outcome::slot_after(refusal, shared, x);
        self.slots[k] = after;
        Stepped {
            refusal,
            position: self,
        }
    }

    // The party's first shares, for the contract.
    fn share_all(
        self,
        sheet: &Sheet,
        setup: &[u8],
        view: View,
        early: bool,
        party: u8,
        to: Destination,
    ) -> Stepped
        requires fit { Fit sheet.now.bytes setup.now }
        requires view_value { view ≡ view_below sheet.now.bytes (count sheet.now.bytes) self }
        requires early_value { early ≡ is_early party (slot self lock_a) (slot self lock_b) }
        requires sheet_value { shareable sheet.now.bytes 255 ≡ true }
        ensures { result ≡ take_step sheet.now.bytes setup.now self (Share party 255 to) }
    {
        if let Err(refusal) = self.first_refusal(sheet, setup, view, early, party) {
            return Stepped {
                refusal: refusal.number(),
                position: self,
            };
        }
        let position = self.share_first(sheet, party);
        Stepped {
            refusal: refusal::ACCEPTED,
            position,
        }
    }

    // 2 Give.
    pub fn give(
        mut self,
        sheet: &Sheet,
        setup: &[u8],
        view: View,
        party: u8,
        i: u8,
        to: Destination,
    ) -> Stepped
        requires fit { Fit sheet.now.bytes setup.now }
        requires view_value { view ≡ view_below sheet.now.bytes (count sheet.now.bytes) self }
        requires i_bound { i < 8 }
        ensures { result ≡ take_step sheet.now.bytes setup.now self (Give party i to) }
    {
        let receiver = u8::from(to);
        let allowed = sheet::setup::conduct(setup) == 0
            || self.may_give(sheet, setup, view, party, i);
        let held = view.keys(receiver);
        let met = sharing::give_met(view.keys(party), held, i);
        let refusal = refusal::number_of(conduct::conduct_refusal(allowed, met));
        let k = usize::from(receiver);
        let after = outcome::keys_after(refusal, held, i);
        self.keys[k] = after;
        Stepped {
            refusal,
            position: self,
        }
    }

    // 3 Send to pool.
    pub fn send_to_pool(
        mut self,
        sheet: &Sheet,
        setup: &[u8],
        view: View,
        party: u8,
        t: u8,
        to: Destination,
    ) -> Stepped
        requires fit { Fit sheet.now.bytes setup.now }
        requires view_value { view ≡ view_below sheet.now.bytes (count sheet.now.bytes) self }
        requires t_bound { t < count sheet.now.bytes }
        ensures { result ≡ take_step sheet.now.bytes setup.now self (SendToPool party t to) }
    {
        let destination = u8::from(to);
        let k = usize::from(t);
        let may = sheet::setup::conduct(setup) == 0 || self.may_send(sheet, setup, party, k);
        let paying = pays_first(sheet, setup, k) && self.can_pay(sheet, setup, view, party);
        let allowed = may & !paying;
        let since = self.since(sheet, k);
        let x = self.slots[k];
        let refusal = refusal::number_of(sending::pool_refusal(
            sheet,
            setup,
            view,
            allowed,
            x,
            since,
            party,
            k,
            destination,
        ));
        let sent = sending::sent_slot(sheet, k, destination, x);
        let after = outcome::slot_after(refusal, sent, x);
        self.slots[k] = after;
        Stepped {
            refusal,
            position: self,
        }
    }

    // 4 Hand to miner.
    pub fn hand_to_miner(
        mut self,
        sheet: &Sheet,
        setup: &[u8],
        view: View,
        party: u8,
        t: u8,
        to: Destination,
    ) -> Stepped
        requires fit { Fit sheet.now.bytes setup.now }
        requires view_value { view ≡ view_below sheet.now.bytes (count sheet.now.bytes) self }
        requires t_bound { t < count sheet.now.bytes }
        ensures { result ≡ take_step sheet.now.bytes setup.now self (HandToMiner party t to) }
    {
        let destination = u8::from(to);
        let k = usize::from(t);
        let may = sheet::setup::conduct(setup) == 0 || self.may_send(sheet, setup, party, k);
        let paying = pays_first(sheet, setup, k) && self.can_pay(sheet, setup, view, party);
        let allowed = may & !paying;
        let since = self.since(sheet, k);
        let x = self.slots[k];
        let refusal = refusal::number_of(sending::miner_refusal(
            sheet,
            setup,
            view,
            allowed,
            x,
            since,
            party,
            k,
            destination,
        ));
        let handed = effect::handed_slot(destination, x);
        let after = outcome::slot_after(refusal, handed, x);
        self.slots[k] = after;
        Stepped {
            refusal,
            position: self,
        }
    }

    // 5 Include.
    pub fn include(
        mut self,
        sheet: &Sheet,
        setup: &[u8],
        view: View,
        party: u8,
        t: u8,
        to: Destination,
    ) -> Stepped
        requires fit { Fit sheet.now.bytes setup.now }
        requires view_value { view ≡ view_below sheet.now.bytes (count sheet.now.bytes) self }
        requires t_bound { t < count sheet.now.bytes }
        ensures { result ≡ take_step sheet.now.bytes setup.now self (Include party t to) }
    {
        let k = usize::from(t);
        let any = self.any_owed(sheet, setup, view);
        let refusal = refusal::number_of(mining::include_refusal(sheet, view, any, k));
        let x = self.slots[k];
        let included = x.with_block(x.pool);
        let after = outcome::slot_after(refusal, included, x);
        self.slots[k] = after;
        Stepped {
            refusal,
            position: self,
        }
    }

    // 6 Mine, where `due` is the soonest deadline of those that wait. An empty block changes only the blocks mined.
    pub fn mine(
        mut self,
        sheet: &Sheet,
        setup: &[u8],
        view: View,
        due: u32,
        party: u8,
        t: u8,
        to: Destination,
    ) -> Stepped
        requires fit { Fit sheet.now.bytes setup.now }
        requires view_value { view ≡ view_below sheet.now.bytes (count sheet.now.bytes) self }
        requires due_value { due ≡ soonest_due sheet.now.bytes setup.now self }
        ensures { result ≡ take_step sheet.now.bytes setup.now self (Mine party t to) }
    {
        let any = owed::is_next(view.mined, due);
        let refusal = refusal::number_of(mining::mine_refusal(view, any));
        if outcome::entries_after(refusal, view.block) != 0 {
            let position = self.after_entries(sheet, view);
            return Stepped { refusal, position };
        }
        let mined = outcome::mined_after(refusal, self.mined);
        self.mined = mined;
        Stepped {
            refusal,
            position: self,
        }
    }

    // 7 Bump.
    pub fn bump(
        self,
        sheet: &Sheet,
        setup: &[u8],
        view: View,
        party: u8,
        t: u8,
        to: Destination,
    ) -> Stepped
        requires fit { Fit sheet.now.bytes setup.now }
        requires view_value { view ≡ view_below sheet.now.bytes (count sheet.now.bytes) self }
        requires t_bound { t < count sheet.now.bytes }
        ensures { result ≡ take_step sheet.now.bytes setup.now self (Bump party t to) }
    {
        let k = usize::from(t);
        let owed = self.owed(sheet, setup, view, k);
        if let Err(refusal) = mining::bump_refusal(owed) {
            return Stepped {
                refusal: refusal.number(),
                position: self,
            };
        }
        let position = self.after_bump(sheet, view, k);
        Stepped {
            refusal: refusal::ACCEPTED,
            position,
        }
    }
}
