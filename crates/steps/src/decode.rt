// Four bytes as a step, or none: refusal 11.
ghost use Rattle.std.specs.Prelude.{◌<◌, ◌≡◌, ◌&&◌, ◌||◌, eqb, ltb, length};
ghost use Rattle.sheet.specs.Field.{count, signatures};
ghost use Rattle.sheet.specs.Checked.{Fit};
ghost use Rattle.slots.specs.Destination.{is_party};
ghost use Rattle.steps.specs.Decode.{sends_to, shares_to, is_other, first_share_fields, fields_right, of_kind, spelled, range_checked, decode};

use crate::names::NO_TRANSACTION;
use sheet::field::Sheet;
use slots::{Destination, Step, party};

// The step of a kind, with its destination; there are seven kinds. Document 01 names this form: "decoded from four bytes and matched".
fn of_kind(kind: u8, party: u8, t: u8, to: Destination) -> Option<Step>
    ensures { result ≡ of_kind kind party t to }
{
    match kind {
        1 => Some(Step::Share(party, t, to)),
        2 => Some(Step::Give(party, t, to)),
        3 => Some(Step::SendToPool(party, t, to)),
        4 => Some(Step::HandToMiner(party, t, to)),
        5 => Some(Step::Include(party, t, to)),
        6 => Some(Step::Mine(party, t, to)),
        7 => Some(Step::Bump(party, t, to)),
        _ => None,
    }
}

// The step that four bytes spell, whatever the sheet: document 01's form, as `of_kind`.
fn spelled(kind: u8, party: u8, t: u8, destination: u8) -> Option<Step>
    ensures { result ≡ spelled kind party t destination }
{
    of_kind(kind, party, t, Destination::from_number(destination)?)
}

// Whether t may be sent by a party to a destination.
fn sends_to(sheet: &Sheet, party: u8, t: usize, destination: u8) -> bool
    requires t_bound { t < count sheet.now.bytes }
    ensures { result ≡ sends_to sheet.now.bytes party t destination }
{
    if party::is_contract(sheet, t) {
        return destination == 2;
    }
    if destination == party {
        return party::is_payee(sheet, t, party);
    }
    false
}

// Whether t may be shared for a destination: a contract transaction for the contract, a paying one for a payee.
pub fn shares_to(sheet: &Sheet, t: usize, destination: u8) -> bool
    requires t_bound { t < count sheet.now.bytes }
    ensures { result ≡ shares_to sheet.now.bytes t destination }
{
    if party::is_contract(sheet, t) {
        return destination == 2;
    }
    if sheet.is_party(destination) {
        return party::is_payee(sheet, t, destination);
    }
    false
}

// Whether a destination is another party.
pub fn is_other(sheet: &Sheet, party: u8, destination: u8) -> bool
    ensures { result ≡ is_other sheet.now.bytes party destination }
{
    if sheet.is_party(destination) {
        return destination != party;
    }
    false
}

// Whether a share names the first shares, under conduct 1 and 2.
fn first_share_fields(setup: &[u8], t: u8, destination: u8) -> bool
    requires { length setup.now ≡ 4 }
    ensures { result ≡ first_share_fields setup.now t destination }
{
    if t != NO_TRANSACTION {
        return false;
    }
    if sheet::setup::conduct(setup) == 0 {
        return false;
    }
    destination == 2
}

// Whether t is of the sheet and may be shared for a destination.
fn listed_share(sheet: &Sheet, t: u8, destination: u8) -> bool
    ensures { result ≡ (ltb t (count sheet.now.bytes) && shares_to sheet.now.bytes t destination) }
{
    let k = usize::from(t);
    if k < sheet.count() {
        return shares_to(sheet, k, destination);
    }
    false
}

// Whether t is of the sheet and may be sent by a party to a destination.
fn listed_send(sheet: &Sheet, party: u8, t: u8, destination: u8) -> bool
    ensures { result ≡ (ltb t (count sheet.now.bytes) && sends_to sheet.now.bytes party t destination) }
{
    let k = usize::from(t);
    if k < sheet.count() {
        return sends_to(sheet, party, k, destination);
    }
    false
}

// The fields of kind 1.
fn share_fields(sheet: &Sheet, setup: &[u8], party: u8, t: u8, destination: u8) -> bool
    requires { Fit sheet.now.bytes setup.now }
    ensures { result ≡ (is_party sheet.now.bytes party && ((ltb t (count sheet.now.bytes) && shares_to sheet.now.bytes t destination) || first_share_fields setup.now t destination)) }
{
    if !sheet.is_party(party) {
        return false;
    }
    if listed_share(sheet, t, destination) {
        return true;
    }
    first_share_fields(setup, t, destination)
}

// The fields of kind 2.
fn give_fields(sheet: &Sheet, party: u8, i: u8, destination: u8) -> bool
    ensures { result ≡ (is_party sheet.now.bytes party && (ltb i (signatures sheet.now.bytes) && is_other sheet.now.bytes party destination)) }
{
    if !sheet.is_party(party) {
        return false;
    }
    if i < sheet.signatures() {
        return is_other(sheet, party, destination);
    }
    false
}

// The fields of kinds 3 and 4.
fn send_fields(sheet: &Sheet, party: u8, t: u8, destination: u8) -> bool
    ensures { result ≡ (is_party sheet.now.bytes party && (ltb t (count sheet.now.bytes) && sends_to sheet.now.bytes party t destination)) }
{
    if !sheet.is_party(party) {
        return false;
    }
    listed_send(sheet, party, t, destination)
}

// The fields of kinds 5 and 7.
fn miner_fields(sheet: &Sheet, party: u8, t: u8, destination: u8) -> bool
    ensures { result ≡ (eqb party 2 && (ltb t (count sheet.now.bytes) && eqb destination 2)) }
{
    if party != 2 {
        return false;
    }
    if usize::from(t) < sheet.count() {
        return destination == 2;
    }
    false
}

// The fields of kind 6.
fn mine_fields(party: u8, t: u8, destination: u8) -> bool
    ensures { result ≡ (eqb party 2 && (eqb t 255 && eqb destination 2)) }
{
    if party != 2 {
        return false;
    }
    if t != NO_TRANSACTION {
        return false;
    }
    destination == 2
}

// Whether a step's fields are right for its kind.
fn fields_right(sheet: &Sheet, setup: &[u8], x: Step) -> bool
    requires { Fit sheet.now.bytes setup.now }
    ensures { result ≡ fields_right sheet.now.bytes setup.now x }
{
    match x {
        Step::Share(party, t, to) => share_fields(sheet, setup, party, t, u8::from(to)),
        Step::Give(party, i, to) => give_fields(sheet, party, i, u8::from(to)),
        Step::SendToPool(party, t, to) => send_fields(sheet, party, t, u8::from(to)),
        Step::HandToMiner(party, t, to) => send_fields(sheet, party, t, u8::from(to)),
        Step::Include(party, t, to) => miner_fields(sheet, party, t, u8::from(to)),
        Step::Mine(party, t, to) => mine_fields(party, t, u8::from(to)),
        Step::Bump(party, t, to) => miner_fields(sheet, party, t, u8::from(to)),
    }
}

// A spelled step, if its fields are right.
#[tactic(auto, unfolding(crate::specs::Decode::range_checked))]
fn range_checked(sheet: &Sheet, setup: &[u8], read: Option<Step>) -> Option<Step>
    requires { Fit sheet.now.bytes setup.now }
    ensures { result ≡ range_checked sheet.now.bytes setup.now read }
{
    match read {
        Some(x) if fields_right(sheet, setup, x) => Some(x),
        _ => None,
    }
}

// Four bytes as a step under a sheet and a setup; none is refused with 11.
pub fn decode(
    sheet: &Sheet,
    setup: &[u8],
    kind: u8,
    party: u8,
    t: u8,
    destination: u8,
) -> Option<Step>
    requires { Fit sheet.now.bytes setup.now }
    ensures { result ≡ decode sheet.now.bytes setup.now kind party t destination }
{
    range_checked(sheet, setup, spelled(kind, party, t, destination))
}
