// The open steps of a position, written actor by actor.
ghost use Rattle.std.specs.Prelude.{◌≤◌, ◌≡◌, length};
ghost use Rattle.laws.specs.Over.{over};
ghost use Rattle.output.specs.Forms.Emitted.{actor_bytes, Counted};
ghost use Rattle.sheet.specs.Checked.{Fit};
ghost use Rattle.position.specs.Open.{open_steps, list_bytes};
ghost use Rattle.position.specs.Answers.{fitted};
ghost use Rattle.call_list.specs.Forms.SetsBytes.{two_bytes, sets_bytes, sets_count};

use output::open;
use position::Position;
use queries::OpenSets;
use sheet::field::Sheet;
use sheet::refusal::{ACCEPTED, Answer, Refusal};

// An actor's steps, at the front of the buffer; the answer is their length in bytes.
fn write_actor(sets: OpenSets, actor: u8, out: &mut [u8]) -> usize
    requires { length (actor_bytes sets.below sets.last actor) ≤ length out.old }
    ensures value { result ≡ length (actor_bytes sets.below sets.last actor) }
    ensures out_after { out.new ≡ over (actor_bytes sets.below sets.last actor) out.old }
{
    let below = sets.below;
    open::write_open(below, sets.last, actor, out)
}

// One actor's steps, and another's in the part of the buffer that starts after them; the answer is their length in bytes.
fn write_two(x: OpenSets, a: u8, y: OpenSets, b: u8, out: &mut [u8]) -> usize
    requires { length (two_bytes x a y b) ≤ length out.old }
    ensures value { result ≡ length (two_bytes x a y b) }
    ensures out_after { out.new ≡ over (two_bytes x a y b) out.old }
{
    let start = write_actor(x, a, out);
    let rest = write_actor(y, b, &mut out[start..]);
    start + rest
}

// Alice's steps and Bob's; Carol's and the miner's in the part that starts after them.
fn write_all(alice: OpenSets, bob: OpenSets, carol: OpenSets, miner: OpenSets, out: &mut [u8])
    requires { length (sets_bytes alice bob carol miner) ≤ length out.old }
    ensures { out.new ≡ over (sets_bytes alice bob carol miner) out.old }
{
    let start = write_two(alice, 0, bob, 1, out);
    write_two(carol, 3, miner, 2, &mut out[start..]);
}

// The number of an actor's steps.
fn step_count(sets: OpenSets) -> usize
    ensures { Counted sets.below sets.last result }
{
    let below = sets.below;
    open::open_count(below, sets.last)
}

// The number of all actors' steps.
fn sets_count(alice: OpenSets, bob: OpenSets, carol: OpenSets, miner: OpenSets) -> usize
    ensures { result ≡ sets_count alice bob carol miner }
{
    let a = step_count(alice);
    let b = step_count(bob);
    let c = step_count(carol);
    let m = step_count(miner);
    a + b + c + m
}

// All steps where the buffer has room for them, else none.
fn write_fitting(
    alice: OpenSets,
    bob: OpenSets,
    carol: OpenSets,
    miner: OpenSets,
    out: &mut [u8],
) -> Answer
    ensures refusal_value { result.refusal ≡ (fitted (sets_bytes alice bob carol miner) (sets_count alice bob carol miner) out.old).refusal }
    ensures count_value { result.count ≡ (fitted (sets_bytes alice bob carol miner) (sets_count alice bob carol miner) out.old).count }
    ensures out_after { out.new ≡ (fitted (sets_bytes alice bob carol miner) (sets_count alice bob carol miner) out.old).buffer }
{
    let count = sets_count(alice, bob, carol, miner);
    if out.len() < 4 * count {
        return Answer {
            refusal: Refusal::BufferShort as u32,
            count: 0,
        };
    }
    write_all(alice, bob, carol, miner, out);
    Answer {
        refusal: ACCEPTED,
        count: count as u32,
    }
}

// The open steps of the position.
pub fn write_list(position: Position, sheet: &Sheet, setup: &[u8], out: &mut [u8]) -> Answer
    requires { Fit sheet.now.bytes setup.now }
    ensures refusal_value { result.refusal ≡ (fitted (list_bytes sheet.now.bytes setup.now position) (length (open_steps sheet.now.bytes setup.now position)) out.old).refusal }
    ensures count_value { result.count ≡ (fitted (list_bytes sheet.now.bytes setup.now position) (length (open_steps sheet.now.bytes setup.now position)) out.old).count }
    ensures out_after { out.new ≡ (fitted (list_bytes sheet.now.bytes setup.now position) (length (open_steps sheet.now.bytes setup.now position)) out.old).buffer }
{
    let view = position.view(sheet);
    let o = position.guards(sheet, setup, view);
    let owed = position.any_owed(sheet, setup, view);
    let alice = queries::open::open_sets(position, sheet, setup, view, o, owed, 0);
    let bob = queries::open::open_sets(position, sheet, setup, view, o, owed, 1);
    let carol = queries::open::open_sets(position, sheet, setup, view, o, owed, 3);
    let miner = queries::open::open_sets(position, sheet, setup, view, o, owed, 2);
    write_fitting(alice, bob, carol, miner, out)
}
