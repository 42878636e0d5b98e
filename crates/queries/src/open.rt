// The open steps of an actor, as sets.
ghost use Rattle.std.specs.Prelude.{◌<◌, ◌≡◌, true};
ghost use Rattle.laws.specs.Sets.{set_below};
ghost use Rattle.sheet.specs.Field.{count};
ghost use Rattle.sheet.specs.Checked.{Fit};
ghost use Rattle.readings.specs.Forms.Context.{may_stand, destination_sets};
ghost use Rattle.position.specs.Owed.{any_owed};
ghost use Rattle.position.specs.Forms.Guards.{guards};
ghost use Rattle.position.specs.Forms.View.{view_below};
ghost use Rattle.queries.specs.Forms.OpenSets.{is_open_step, open_set, below_sets, open_sets, is_idle, is_paying, context_of};

use crate::OpenSets;
use position::Position;
use readings::{Context, DestinationSets, open};
use sheet::field::Sheet;
use sheet::{set, table};
use slots::next;
use steps::{Guards, View};

// Whether the actor is a careful party that can send a transaction that pays it. In phase 0 nobody sends.
fn is_paying(
    position: Position,
    sheet: &Sheet,
    setup: &[u8],
    view: View,
    o: Guards,
    actor: u8,
) -> bool
    requires fit { Fit sheet.now.bytes setup.now }
    requires view_value { view ≡ view_below sheet.now.bytes (count sheet.now.bytes) position }
    requires o_value { o ≡ guards sheet.now.bytes setup.now position }
    ensures { result ≡ is_paying sheet.now.bytes setup.now position actor }
{
    if !sheet.is_party(actor) {
        return false;
    }
    if !o.careful {
        return false;
    }
    if o.phase == 0 {
        return false;
    }
    position.can_pay(sheet, setup, view, actor)
}

// What is the same for all steps of the actor.
fn context(
    position: Position,
    sheet: &Sheet,
    setup: &[u8],
    view: View,
    o: Guards,
    owed: bool,
    actor: u8,
) -> Context
    requires fit { Fit sheet.now.bytes setup.now }
    requires view_value { view ≡ view_below sheet.now.bytes (count sheet.now.bytes) position }
    requires o_value { o ≡ guards sheet.now.bytes setup.now position }
    requires owed_value { owed ≡ any_owed sheet.now.bytes setup.now position }
    ensures { result ≡ context_of sheet.now.bytes setup.now position actor }
{
    let paying = is_paying(position, sheet, setup, view, o, actor);
    let made = position.first_shares_made(actor);
    Context {
        view,
        guards: o,
        paying,
        owed,
        made,
    }
}

// Of the numbers below n, those with which a step of this kind and this destination is open.
fn sheet_set(
    position: Position,
    sheet: &Sheet,
    setup: &[u8],
    context: Context,
    dests: DestinationSets,
    actor: u8,
    kind: u8,
    to: u8,
) -> u32
    requires fit { Fit sheet.now.bytes setup.now }
    requires context_value { context ≡ context_of sheet.now.bytes setup.now position actor }
    requires dests_value { dests ≡ destination_sets sheet.now.bytes actor }
    requires to_value { may_stand sheet.now.bytes kind actor to ≡ true }
    requires fact { kind ≡ 2 → ⊥ }
    requires to_bound { to < 4 }
    ensures { result ≡ set_below (count sheet.now.bytes) (λ t. is_open_step sheet.now.bytes setup.now position kind actor t to) }
{
    let n = sheet.count();
    let c = open::candidates(setup, context, dests, kind, actor, to);
    let mut found: u32 = 0;
    for t in next::members(c, n) {
        let x = position.slots[t];
        let since = position.since(sheet, t);
        let on = open::accepted_as(sheet, setup, context, x, since, kind, actor, t, to);
        found = set::join(found, on, t);
    }
    found
}

// The transaction bytes below 32 with which a step of this kind and this destination is open.
fn open_set(
    position: Position,
    sheet: &Sheet,
    setup: &[u8],
    context: Context,
    dests: DestinationSets,
    actor: u8,
    kind: u8,
    destination: u8,
) -> u32
    requires fit { Fit sheet.now.bytes setup.now }
    requires context_value { context ≡ context_of sheet.now.bytes setup.now position actor }
    requires dests_value { dests ≡ destination_sets sheet.now.bytes actor }
    requires destination_bound { destination < 4 }
    ensures { result ≡ open_set sheet.now.bytes setup.now position actor kind destination }
{
    if !open::may_stand(sheet, kind, actor, destination) {
        return 0;
    }
    if kind == 2 {
        return open::give_set(sheet, context, actor, destination);
    }
    let c = open::candidates(setup, context, dests, kind, actor, destination);
    if c == 0 {
        return 0;
    }
    sheet_set(
        position,
        sheet,
        setup,
        context,
        dests,
        actor,
        kind,
        destination,
    )
}

// These sets, for each kind and destination.
fn below_sets(
    position: Position,
    sheet: &Sheet,
    setup: &[u8],
    context: Context,
    dests: DestinationSets,
    actor: u8,
) -> [u32; 28]
    requires fit { Fit sheet.now.bytes setup.now }
    requires context_value { context ≡ context_of sheet.now.bytes setup.now position actor }
    requires dests_value { dests ≡ destination_sets sheet.now.bytes actor }
    ensures { result ≡ below_sets sheet.now.bytes setup.now position actor }
{
    table::filled(28, 0, |i| {
        let kind = (i / 4 + 1) as u8;
        open_set(
            position,
            sheet,
            setup,
            context,
            dests,
            actor,
            kind,
            (i % 4) as u8,
        )
    })
}

// Whether none of an actor's steps with a transaction byte other than 255 is open: a party's in phase 0, the miner's while the
// pool is empty.
fn is_idle(sheet: &Sheet, view: View, o: Guards, actor: u8) -> bool
    ensures { result ≡ is_idle sheet.now.bytes view o actor }
{
    if !sheet.is_party(actor) {
        return view.pool == 0;
    }
    if o.free {
        return false;
    }
    o.phase == 0
}

// The open steps of an actor.
pub fn open_sets(
    position: Position,
    sheet: &Sheet,
    setup: &[u8],
    view: View,
    o: Guards,
    owed: bool,
    actor: u8,
) -> OpenSets
    requires fit { Fit sheet.now.bytes setup.now }
    requires view_value { view ≡ view_below sheet.now.bytes (count sheet.now.bytes) position }
    requires o_value { o ≡ guards sheet.now.bytes setup.now position }
    requires owed_value { owed ≡ any_owed sheet.now.bytes setup.now position }
    ensures { result ≡ open_sets sheet.now.bytes setup.now position actor }
{
    let context = context(position, sheet, setup, view, o, owed, actor);
    let last = open::last_set(sheet, setup, context, actor);
    if is_idle(sheet, view, o, actor) {
        return OpenSets {
            below: [0; 28],
            last,
        };
    }
    let dests = open::destination_sets(sheet, actor);
    let below = below_sets(position, sheet, setup, context, dests, actor);
    OpenSets { below, last }
}
