// Which steps of an actor are open, by their numbers.
ghost use Rattle.std.specs.Prelude.{◌<◌, ◌≡◌, ◌||◌, eqb, length};
ghost use Rattle.laws.specs.Booleans.{pick};
ghost use Rattle.laws.specs.Failing.{first_failing};
ghost use Rattle.laws.specs.Sets.{set_below};
ghost use Rattle.sheet.specs.Refusal.{refused};
ghost use Rattle.sheet.specs.Field.{count, signatures};
ghost use Rattle.sheet.specs.Setup.{per_day, stealth};
ghost use Rattle.sheet.specs.Checked.{Checked, Fit};
ghost use Rattle.steps.specs.Forms.View.{keys_in};
ghost use Rattle.steps.specs.Forms.Conduct.{share_allowed_in};
ghost use Rattle.steps.specs.Tests.{conduct_rule, bump_rule};
ghost use Rattle.steps.specs.Forms.Sharing.{share_met_in};
ghost use Rattle.steps.specs.Forms.Mining.{owed_in};
ghost use Rattle.readings.specs.Forms.Context.{party_may, may_stand, goes_to, goes_set, destination_sets, destination_set, sharers, senders, turns_in, candidates_in, refusal_as, gives_in, shares_first, mines_in, last_in};

use crate::{Context, DestinationSets};
use sheet::field::Sheet;
use sheet::refusal::Refusal;
use sheet::set;
use slots::{Slot, party};
use steps::names::NO_TRANSACTION;
use steps::{Guards, conduct, decode, mining, owed, parent, sending, sharing};

// Whether a sender can name a destination: the contract or itself.
fn to_sender(actor: u8, destination: u8) -> bool
    ensures { result ≡ (eqb destination 2 || eqb destination actor) }
{
    if destination == 2 {
        return true;
    }
    destination == actor
}

// Whether a party's step of a kind may go to a destination.
fn party_may(sheet: &Sheet, kind: u8, actor: u8, destination: u8) -> bool
    ensures { result ≡ party_may sheet.now.bytes kind actor destination }
{
    match kind {
        1 => true,
        2 => decode::is_other(sheet, actor, destination),
        3 => to_sender(actor, destination),
        4 => to_sender(actor, destination),
        _ => false,
    }
}

// Whether some step of a kind, an actor and a destination may have right fields with a transaction byte other than 255.
pub fn may_stand(sheet: &Sheet, kind: u8, actor: u8, destination: u8) -> bool
    ensures { result ≡ may_stand sheet.now.bytes kind actor destination }
{
    if sheet.is_party(actor) {
        return party_may(sheet, kind, actor, destination);
    }
    if actor != 2 {
        return false;
    }
    if kind == 5 {
        return destination == 2;
    }
    if kind == 7 {
        return destination == 2;
    }
    false
}

// Whether t goes to a destination: a contract transaction to the contract, a paying one to its payees.
fn goes_to(sheet: &Sheet, t: usize, destination: u8) -> bool
    requires t_bound { t < count sheet.now.bytes }
    ensures { result ≡ goes_to sheet.now.bytes t destination }
{
    if destination == 2 {
        return party::is_contract(sheet, t);
    }
    party::is_payee(sheet, t, destination)
}

// The transactions that go to a destination.
fn goes_set(sheet: &Sheet, destination: u8) -> u32
    ensures { result ≡ goes_set sheet.now.bytes destination }
{
    let n = sheet.count();
    set::below(n, |t| goes_to(sheet, t, destination))
}

// These, by destination; none for the miner, whose steps all go to the contract.
pub fn destination_sets(sheet: &Sheet, actor: u8) -> DestinationSets
    ensures { result ≡ destination_sets sheet.now.bytes actor }
{
    if !sheet.is_party(actor) {
        return DestinationSets {
            alice: 0,
            bob: 0,
            carol: 0,
            contract: 0,
        };
    }
    let alice = goes_set(sheet, 0);
    let bob = goes_set(sheet, 1);
    let carol = goes_set(sheet, 3);
    let contract = goes_set(sheet, 2);
    DestinationSets {
        alice,
        bob,
        carol,
        contract,
    }
}

impl DestinationSets {
    // Those of one destination.
    fn of(self, destination: u8) -> u32
        ensures { result ≡ destination_set self destination }
    {
        match destination {
            0 => self.alice,
            1 => self.bob,
            3 => self.carol,
            _ => self.contract,
        }
    }
}

// The transactions that conduct may let a party share: but for open conduct success, bit 2, by Alice.
fn sharers(o: Guards, actor: u8) -> u32
    ensures { result ≡ sharers o actor }
{
    if o.free {
        return 4294967295;
    }
    if o.phase != 3 {
        return 0;
    }
    if actor != 0 {
        return 0;
    }
    4
}

// The transactions that conduct may let a party send: none in phase 0.
fn senders(o: Guards) -> u32
    ensures { result ≡ senders o }
{
    if o.free {
        return 4294967295;
    }
    if o.phase == 0 {
        return 0;
    }
    4294967295
}

// These for kind 4, which needs stealth.
fn handers(setup: &[u8], o: Guards) -> u32
    requires { length setup.now ≡ 4 }
    ensures { result ≡ pick (eqb (stealth setup.now) 1) (senders o) 0 }
{
    if sheet::setup::stealth(setup) != 1 {
        return 0;
    }
    senders(o)
}

// The transactions that a kind's tests may pass, whatever the destination.
fn turns(setup: &[u8], context: Context, kind: u8, actor: u8) -> u32
    requires { length setup.now ≡ 4 }
    ensures { result ≡ turns_in setup.now context kind actor }
{
    match kind {
        1 => sharers(context.guards, actor),
        3 => senders(context.guards),
        4 => handers(setup, context.guards),
        _ => context.view.pool,
    }
}

// The transactions that are tested for a kind and a destination.
pub fn candidates(
    setup: &[u8],
    context: Context,
    dests: DestinationSets,
    kind: u8,
    actor: u8,
    destination: u8,
) -> u32
    requires { length setup.now ≡ 4 }
    ensures { result ≡ candidates_in setup.now context dests kind actor destination }
{
    let turns = turns(setup, context, kind, actor);
    if 5 <= kind {
        return turns;
    }
    dests.of(destination) & turns
}

// Kind 1.
fn share_refusal(
    sheet: &Sheet,
    context: Context,
    x: Slot,
    actor: u8,
    t: usize,
    destination: u8,
) -> Result<(), Refusal>
    requires t_bound { t < count sheet.now.bytes }
    requires destination_bound { destination < 4 }
    ensures { refused result ≡ first_failing (conduct_rule (share_allowed_in context.guards actor t) (share_met_in sheet.now.bytes (keys_in context.view actor) x actor t destination)) }
{
    let allowed = context.guards.share_allowed(actor, t as u8);
    let met = sharing::share_met(sheet, context.view.keys(actor), x, actor, t, destination);
    conduct::conduct_refusal(allowed, met)
}

// Kind 7.
fn bump_refusal(
    sheet: &Sheet,
    setup: &[u8],
    context: Context,
    since: u16,
    t: usize,
) -> Result<(), Refusal>
    requires fit { Fit sheet.now.bytes setup.now }
    requires t_bound { t < count sheet.now.bytes }
    ensures { refused result ≡ first_failing (bump_rule (owed_in sheet.now.bytes (per_day setup.now) context.view since t)) }
{
    let per_day = sheet::setup::per_day(setup);
    mining::bump_refusal(owed::owed_at(sheet, per_day, context.view, since, t))
}

// Whether a step of any kind but 2 and 6, with right fields, is accepted. Kinds 3 and 4 test the parent first: most that are not open
// lack it.
pub fn accepted_as(
    sheet: &Sheet,
    setup: &[u8],
    context: Context,
    x: Slot,
    since: u16,
    kind: u8,
    actor: u8,
    t: usize,
    destination: u8,
) -> bool
    requires fit { Fit sheet.now.bytes setup.now }
    requires t_bound { t < count sheet.now.bytes }
    requires destination_bound { destination < 4 }
    ensures { result ≡ eqb (refusal_as sheet.now.bytes setup.now context x since kind actor t destination) 0 }
{
    match kind {
        1 => share_refusal(sheet, context, x, actor, t, destination).is_ok(),
        3 => {
            parent::parent_there(sheet, context.view.sent(), t)
                && sending::pool_refusal(
                    sheet,
                    setup,
                    context.view,
                    context.guards.send_held(sheet, context.paying, actor, t),
                    x,
                    since,
                    actor,
                    t,
                    destination,
                )
                .is_ok()
        }
        4 => {
            parent::parent_there(sheet, context.view.placed(), t)
                && sending::miner_refusal(
                    sheet,
                    setup,
                    context.view,
                    context.guards.send_held(sheet, context.paying, actor, t),
                    x,
                    since,
                    actor,
                    t,
                    destination,
                )
                .is_ok()
        }
        5 => mining::include_refusal(sheet, context.view, context.owed, t).is_ok(),
        _ => bump_refusal(sheet, setup, context, since, t).is_ok(),
    }
}

// Kind 2.
fn gives(context: Context, actor: u8, i: u8, destination: u8) -> bool
    requires { i < 8 }
    ensures { result ≡ gives_in context actor i destination }
{
    let allowed = context.guards.give_allowed(actor, i);
    let receiver = context.view.keys(destination);
    let met = sharing::give_met(context.view.keys(actor), receiver, i);
    conduct::conduct_refusal(allowed, met).is_ok()
}

// The signatures that a party can give to the other.
pub fn give_set(sheet: &Sheet, context: Context, actor: u8, destination: u8) -> u32
    requires { Checked sheet.now.bytes }
    ensures { result ≡ set_below (signatures sheet.now.bytes) (λ i. gives_in context actor i destination) }
{
    let n = usize::from(sheet.signatures());
    set::below(n, |i| gives(context, actor, i as u8, destination))
}

// Whether a party's first shares are open: kind 1 with transaction byte 255.
fn shares_first(setup: &[u8], context: Context, actor: u8) -> bool
    requires { length setup.now ≡ 4 }
    ensures { result ≡ shares_first setup.now context actor }
{
    if sheet::setup::conduct(setup) == 0 {
        return false;
    }
    let allowed = context.guards.share_allowed(actor, NO_TRANSACTION);
    conduct::conduct_refusal(allowed, !context.made).is_ok()
}

// Whether a block may be mined: kind 6, whose transaction byte is 255.
fn mines(context: Context, actor: u8) -> bool
    ensures { result ≡ mines_in context actor }
{
    if actor != 2 {
        return false;
    }
    mining::mine_refusal(context.view, context.owed).is_ok()
}

// The kinds and destinations with which the step with transaction byte 255 is open: bit 4 * k + d for kind k + 1 and destination d.
pub fn last_set(sheet: &Sheet, setup: &[u8], context: Context, actor: u8) -> u32
    requires setup_len { length setup.now ≡ 4 }
    ensures { result ≡ last_in sheet.now.bytes setup.now context actor }
{
    if sheet.is_party(actor) {
        return set::join(0, shares_first(setup, context, actor), 2);
    }
    set::join(0, mines(context, actor), 22)
}
