// One loop plays the steps of every call: position, counts and view go in and come back.
ghost use Rattle.std.specs.Prelude.{◌<◌, ◌≤◌, ◌≡◌, eqb, length};
ghost use Rattle.laws.specs.Booleans.{pick};
ghost use Rattle.sheet.specs.Field.{count};
ghost use Rattle.sheet.specs.Checked.{Fit};
ghost use Rattle.steps.specs.Forms.View.{view_after, view_passed};
ghost use Rattle.position.specs.Play.{journal_steps};
ghost use Rattle.position.specs.Forms.View.{view_below};
ghost use Rattle.call_run.specs.Forms.Row.{run_row};

use dated::noted;
use position::{Position, seen};
use sheet::field::Sheet;
use sheet::refusal::{ACCEPTED, Refusal};
use slots::{Slot, Step};
use steps::{View, decode, owed};

// What a row of steps comes to: its refusal, and the steps accepted before that; after these the position, the counts, where they were
// asked for, and the view.
#[derive(Clone, Copy)]
pub struct RowRan {
    // a number, as in run_row of specs/Forms/Row.antt
    pub refusal: u32,
    pub accepted: u32,
    pub position: Position,
    pub opened: [u32; 32],
    pub view: View,
}

// Stopped after k accepted steps.
fn stopped(refusal: u32, k: usize, position: Position, opened: [u32; 32], view: View) -> RowRan
    requires { k < 4294967296 }
    ensures { result ≡ record { refusal = refusal; accepted = k; position = position; opened = opened; view = view } }
{
    RowRan {
        refusal,
        accepted: k as u32,
        position,
        opened,
        view,
    }
}

// The view after a step that may have changed the slots of this set: none of them, or the one at its least member, which is x then.
fn seen_one(view: View, members: u32, at: usize, x: Slot, mined: u16, keys: [u8; 6]) -> View
    requires { at < 32 }
    ensures { result ≡ pick (eqb members 0) (view_passed view mined keys) (view_after view at x mined keys) }
{
    if members == 0 {
        return view.passed(mined, keys);
    }
    view.after(at, x, mined, keys)
}

// The steps of a journal up to the first refused one, from a position on, whose view this is. Each is decoded, matched, and taken by its
// kind's method: the position goes into it and comes back, whole, accepted or not. After an accepted one the view is brought forward, and
// what is open now is noted where the counts are asked for. The soonest deadline is looked for once for blocks in a row.
pub fn run_row(
    from: Position,
    counts: [u32; 32],
    asked: bool,
    sheet: &Sheet,
    setup: &[u8],
    seen: View,
    journal: &[u8],
) -> RowRan
    requires fit { Fit sheet.now.bytes setup.now }
    requires seen_value { seen ≡ view_below sheet.now.bytes (count sheet.now.bytes) from }
    requires journal_len_bound { length journal.now ≤ 65536 }
    ensures { result ≡ run_row asked sheet.now.bytes setup.now (journal_steps journal.now) 0 from counts }
{
    let n = journal.len() / 4;
    let mut position = from;
    let mut opened = counts;
    let mut view = seen;
    let mut known: u32 = 0;
    for k in 0..n {
        let i = 4 * k;
        let kind = journal[i];
        let byte = journal[i + 2];
        let due = position.soonest_due(sheet, setup, view, kind, known);
        known = owed::still_due(kind, view.block, due);
        let Some(step) = decode::decode(sheet, setup, kind, journal[i + 1], byte, journal[i + 3])
        else {
            return stopped(Refusal::StepField as u32, k, position, opened, view);
        };
        let mut refused: u32 = 0;
        match step {
            Step::Share(party, t, to) => {
                let stepped = position.share(sheet, setup, view, party, t, to);
                position = stepped.position;
                refused = stepped.refusal;
            }
            Step::Give(party, t, to) => {
                let stepped = position.give(sheet, setup, view, party, t, to);
                position = stepped.position;
                refused = stepped.refusal;
            }
            Step::SendToPool(party, t, to) => {
                let stepped = position.send_to_pool(sheet, setup, view, party, t, to);
                position = stepped.position;
                refused = stepped.refusal;
            }
            Step::HandToMiner(party, t, to) => {
                let stepped = position.hand_to_miner(sheet, setup, view, party, t, to);
                position = stepped.position;
                refused = stepped.refusal;
            }
            Step::Include(party, t, to) => {
                let stepped = position.include(sheet, setup, view, party, t, to);
                position = stepped.position;
                refused = stepped.refusal;
            }
            Step::Mine(party, t, to) => {
                let stepped = position.mine(sheet, setup, view, due, party, t, to);
                position = stepped.position;
                refused = stepped.refusal;
            }
            Step::Bump(party, t, to) => {
                let stepped = position.bump(sheet, setup, view, party, t, to);
                position = stepped.position;
                refused = stepped.refusal;
            }
        }
        if refused != 0 {
            return stopped(refused, k, position, opened, view);
        }
        let members = seen::changed_set(view, kind, byte);
        let at = seen::lowest(members);
        if sheet::set::remove(members, at) != 0 {
            let over = position.view_over(sheet, view, seen::refined(sheet, view, kind, members));
            view = over;
        } else {
            let x = position.slots[at];
            let keys = position.keys;
            let one = seen_one(view, members, at, x, position.mined, keys);
            view = one;
        }
        if asked {
            let counted = noted(opened, position, sheet, setup, view);
            opened = counted;
        }
    }
    stopped(ACCEPTED, n, position, opened, view)
}
