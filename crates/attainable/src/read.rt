// What is read off a position once for a party.
ghost use Rattle.std.specs.Prelude.{◌<◌, ◌≡◌, ◌||◌, eqb};
ghost use Rattle.laws.specs.Mask.{bit, union_below};
ghost use Rattle.laws.specs.Sets.{set_below};
ghost use Rattle.laws.specs.Booleans.{pick};
ghost use Rattle.sheet.specs.Field.{parties, party_at, count};
ghost use Rattle.sheet.specs.Checked.{Fit};
ghost use Rattle.steps.specs.Forms.View.{keys_in};
ghost use Rattle.readings.specs.Forms.Report.{dead_in};
ghost use Rattle.position.specs.Position.{slot};
ghost use Rattle.soonest.specs.Forms.Table.{Filled};
ghost use Rattle.attainable.specs.Attainable.{secrets_of, overdue, forgone, never_sent};
ghost use Rattle.attainable.specs.Forms.Others.{alice_guards, names_apart, waits_in, sends_in, Reads};

use crate::{Others, lack};
use position::Position;
use readings::report;
use sheet::field::Sheet;
use sheet::{set, table};
use slots::{Slot, conflict, party, signatures};
use steps::names::{SECRET_BOB, SUCCESS};
use steps::{Guards, View};

// No destination's number, so that none is left out: a number, since `waits_in` and `sends_in` of specs/Forms take one.
const NOWHERE: u8 = 255;

// Careful conduct.
const CAREFUL: u8 = 2;

// Those that are confirmed or dead, where `conflicted` has those whose other rival is confirmed.
fn gone(sheet: &Sheet, confirmed: u32, conflicted: u32) -> u32
    ensures { result ≡ set_below (count sheet.now.bytes) (λ t. bit confirmed t || dead_in sheet.now.bytes confirmed conflicted t) }
{
    set::below(
        sheet.count(),
        |t| set::has(confirmed, t) || report::dead_in(sheet, confirmed, conflicted, t),
    )
}

// Whether without stealth the deadline of t is passed.
fn overdue(position: Position, sheet: &Sheet, setup: &[u8], t: usize) -> bool
    requires fit { Fit sheet.now.bytes setup.now }
    requires t_bound { t < count sheet.now.bytes }
    ensures { result ≡ overdue sheet.now.bytes setup.now position t }
{
    if sheet::setup::stealth(setup) != 0 {
        return false;
    }
    position.deadline_in(sheet, setup, t) <= u32::from(position.mined)
}

// What a careful Alice asks before a send, in phase 3, where nothing else holds one back.
fn alice_guards(position: Position) -> Guards
    ensures { result ≡ alice_guards position }
{
    let success = position.slots[SUCCESS];
    Guards {
        free: false,
        careful: true,
        phase: 3,
        late: false,
        refund: false,
        unshared: success.contract == 0,
        knows: signatures::has(position.keys(0), SECRET_BOB),
        bob_has: 0,
    }
}

// Whether a careful Alice no longer sends t.
fn forgone(position: Position, sheet: &Sheet, setup: &[u8], t: usize) -> bool
    requires fit { Fit sheet.now.bytes setup.now }
    requires t_bound { t < count sheet.now.bytes }
    ensures { result ≡ forgone sheet.now.bytes setup.now position t }
{
    if sheet::setup::conduct(setup) != CAREFUL {
        return false;
    }
    !alice_guards(position).send_allowed(sheet, 0, t)
}

// Whether the others never send t: it is overdue, or the party is Bob and a careful Alice no longer sends it.
fn never_sent(position: Position, sheet: &Sheet, setup: &[u8], party: u8, t: usize) -> bool
    requires fit { Fit sheet.now.bytes setup.now }
    requires t_bound { t < count sheet.now.bytes }
    ensures { result ≡ never_sent sheet.now.bytes setup.now position party t }
{
    if overdue(position, sheet, setup, t) {
        return true;
    }
    if party != 1 {
        return false;
    }
    forgone(position, sheet, setup, t)
}

// Those that the others never send.
fn unsent(position: Position, sheet: &Sheet, setup: &[u8], party: u8) -> u32
    requires { Fit sheet.now.bytes setup.now }
    ensures { result ≡ set_below (count sheet.now.bytes) (never_sent sheet.now.bytes setup.now position party) }
{
    set::below(
        sheet.count(),
        |t| never_sent(position, sheet, setup, party, t),
    )
}

// Whether an entry names a destination other than `off`.
fn names_apart(entry: u8, off: u8) -> bool
    ensures { result ≡ names_apart entry off }
{
    if entry == 0 {
        return false;
    }
    if 4 < entry {
        return false;
    }
    entry - 1 != off
}

// Whether the transaction whose slot is x waits for such a destination.
fn waits_in(x: Slot, off: u8) -> bool
    ensures { result ≡ waits_in x off }
{
    if names_apart(x.pool, off) {
        return true;
    }
    names_apart(x.block, off)
}

// Those that wait for such a destination.
fn waits(position: Position, sheet: &Sheet, off: u8) -> u32
    ensures { result ≡ set_below (count sheet.now.bytes) (λ t. waits_in (slot position t) off) }
{
    set::below(sheet.count(), |t| waits_in(position.slots[t], off))
}

// Whether the party may send t for a destination other than `off`.
fn sends_in(sheet: &Sheet, party: u8, off: u8, t: usize) -> bool
    requires t_bound { t < count sheet.now.bytes }
    ensures { result ≡ sends_in sheet.now.bytes party off t }
{
    if party::is_contract(sheet, t) {
        return 2 != off;
    }
    if party == off {
        return false;
    }
    if 4 <= party {
        return false;
    }
    party::is_payee(sheet, t, party)
}

// Those that it may.
fn sends(sheet: &Sheet, party: u8, off: u8) -> u32
    ensures { result ≡ set_below (count sheet.now.bytes) (sends_in sheet.now.bytes party off) }
{
    set::below(sheet.count(), |t| sends_in(sheet, party, off, t))
}

// The keys of a party, none for X.
fn other_keys(view: View, party: u8, other: u8) -> u8
    ensures { result ≡ pick (eqb other party) 0 (keys_in view other) }
{
    if other == party {
        return 0;
    }
    view.keys(other)
}

// The keys of all the others.
fn others_keys(view: View, sheet: &Sheet, party: u8) -> u8
    ensures { result ≡ union_below (parties sheet.now.bytes) (λ k. pick (eqb (party_at k) party) 0 (keys_in view (party_at k))) }
{
    let n = sheet.parties();
    let mut found: u8 = 0;
    for k in 0..n {
        found = found | other_keys(view, party, sheet::field::party_at(k));
    }
    found
}

// The secrets that each transaction shows.
fn shows(sheet: &Sheet) -> [u8; 32]
    ensures { Filled (λ t v. v ≡ secrets_of sheet.now.bytes t) (count sheet.now.bytes) result }
{
    let secrets = sheet.secrets();
    table::filled(
        sheet.count(),
        0,
        |t| secrets & signatures::exposed_mask(sheet, t),
    )
}

// What is read for a party.
pub fn read(position: Position, sheet: &Sheet, setup: &[u8], party: u8) -> Others
    requires { Fit sheet.now.bytes setup.now }
    ensures { Reads sheet.now.bytes setup.now position party result }
{
    let view = position.view(sheet);
    let conflicted = conflict::conflicts_of(sheet, view.confirmed, true);
    let secrets = sheet.secrets() & view.shared;
    let held = others_keys(view, sheet, party) | secrets;
    let unsent = unsent(position, sheet, setup, party);
    Others {
        confirmed: view.confirmed,
        gone: gone(sheet, view.confirmed, conflicted),
        waits: waits(position, sheet, NOWHERE),
        waits_elsewhere: waits(position, sheet, party),
        sends: sends(sheet, party, NOWHERE),
        sends_elsewhere: sends(sheet, party, party),
        secrets,
        shows: shows(sheet),
        alice: lack::lacks(position, sheet, unsent, party, held, 0),
        bob: lack::lacks(position, sheet, unsent, party, held, 1),
        contract: lack::lacks(position, sheet, unsent, party, held, 2),
        carol: lack::lacks(position, sheet, unsent, party, held, 3),
    }
}
