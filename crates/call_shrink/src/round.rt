// One round over a row of steps: each is tried from the position before it.
ghost use Rattle.std.specs.Prelude.{◌+◌, ◌-◌, ◌≤◌, ◌≡◌, true, false, not, ◌&&◌, ◌⊎◌, length};
ghost use Rattle.laws.specs.Over.{over};
ghost use Rattle.sheet.specs.Checked.{Fit};
ghost use Rattle.position.specs.Position.{start};
ghost use Rattle.position.specs.Play.{journal_steps, journal_bytes};
ghost use Rattle.position.specs.Forms.Journal.{step_at};
ghost use Rattle.call_shrink.specs.Shrink.{still_refused, round};
ghost use Rattle.call_shrink.specs.Forms.Round.{same_step, tried_at, kept_step, position_past, Meets, lost_from, lost_after};

use crate::same::same;
use call_run::journal::{run_from, step_at};
use output::open::write_step;
use position::Position;
use position::journal::start;
use sheet::field::Sheet;

// A row that does not come to the number: its position before the step at byte 4 * from, from which on it has all steps.
#[derive(Clone, Copy)]
pub struct Lost {
    pub from: usize,
    pub position: Position,
}

// The first step of the row that is lost, 0 where there is none.
fn lost_from(lost: Option<Lost>) -> usize
    ensures { result ≡ lost_from lost }
{
    match lost {
        Some(Lost { from, .. }) => from,
        None => 0,
    }
}

// Whether the step at byte i has the bytes of the one before it, which could not go: then dropping either gives the same row.
fn again(went: bool, steps: &[u8], i: usize) -> bool
    requires i_in_bounds { i + 4 ≤ length steps.now }
    requires le_i { went ≡ false → 4 ≤ i }
    ensures { result ≡ (not went && same_step (step_at steps.now (i - 4)) (step_at steps.now i)) }
{
    !went && steps[i - 4..i] == steps[i..i + 4]
}

// Whether a step cannot go without a try: it is a twin, or a block after which a row that is lost comes to the position before it, so that
// dropping either gives the same. `passed` are the steps of that row up to the block and with it.
fn stays(
    twin: bool,
    lost: Option<Lost>,
    here: Position,
    kind: u8,
    sheet: &Sheet,
    setup: &[u8],
    passed: &[u8],
) -> bool
    requires fit { Fit sheet.now.bytes setup.now }
    requires passed_len_bound { length passed.now ≤ 65536 }
    ensures { result ≡ true → (twin ≡ true) ⊎ Meets sheet.now.bytes setup.now lost here (journal_steps passed.now) }
{
    if twin {
        return true;
    }
    if kind != 6 {
        return false;
    }
    let Some(Lost { position, .. }) = lost else {
        return false;
    };
    let ran = run_from(position, sheet, setup, passed);
    if ran.refusal != 0 {
        return false;
    }
    let there = ran.position;
    same(there, here)
}

// The row that is lost after a step was tried: one without the last block that could not go.
fn lost_after(
    lost: Option<Lost>,
    going: bool,
    kind: u8,
    here: Position,
    from: usize,
) -> Option<Lost>
    ensures { result ≡ lost_after lost going kind here from }
{
    if going {
        return lost;
    }
    if kind != 6 {
        return lost;
    }
    Some(Lost {
        from,
        position: here,
    })
}

// Whether the step before these can go: they run up to the last one, which gets the number. The run ends at the first step that is
// refused. A step that stays is not tried.
fn goes(
    stay: bool,
    position: Position,
    sheet: &Sheet,
    setup: &[u8],
    number: u32,
    after: &[u8],
) -> bool
    requires fit { Fit sheet.now.bytes setup.now }
    requires after_len_bound { length after.now ≤ 65536 }
    ensures { result ≡ tried_at sheet.now.bytes setup.now number stay position (journal_steps after.now) }
{
    if stay {
        return false;
    }
    let n = after.len() / 4;
    if n == 0 {
        return false;
    }
    let ran = run_from(position, sheet, setup, after);
    if ran.refusal != number {
        return false;
    }
    ran.accepted as usize + 1 == n
}

// The position past a step: the same where the step goes.
fn past(
    going: bool,
    position: Position,
    sheet: &Sheet,
    setup: &[u8],
    steps: &[u8],
    i: usize,
) -> Position
    requires fit { Fit sheet.now.bytes setup.now }
    requires i_in_bounds { i + 4 ≤ length steps.now }
    ensures { result ≡ position_past sheet.now.bytes setup.now going position (step_at steps.now i) }
{
    if going {
        return position;
    }
    let stepped = step_at(position, sheet, setup, steps, i);
    stepped.position
}

// The four bytes from byte i on, unless their step goes; the answer is their number.
fn write_kept(going: bool, steps: &[u8], i: usize, out: &mut [u8]) -> usize
    requires i_in_bounds { i + 4 ≤ length steps.now }
    requires i_in_bounds_2 { length (journal_bytes (kept_step going (step_at steps.now i))) ≤ length out.old }
    ensures value { result ≡ length (journal_bytes (kept_step going (step_at steps.now i))) }
    ensures out_after { out.new ≡ over (journal_bytes (kept_step going (step_at steps.now i))) out.old }
{
    write_step(
        !going,
        steps[i],
        steps[i + 1],
        steps[i + 2],
        steps[i + 3],
        out,
    )
}

// What a round keeps of the steps, at the front of the buffer; the answer is their number.
pub fn write_round(sheet: &Sheet, setup: &[u8], number: u32, steps: &[u8], out: &mut [u8]) -> usize
    requires fit { Fit sheet.now.bytes setup.now }
    requires steps_len_bound { length steps.now ≤ 4096 }
    requires steps_in_bounds { length steps.now ≤ length out.old }
    requires steps_value { still_refused sheet.now.bytes setup.now number (start sheet.now.bytes) (journal_steps steps.now) ≡ true }
    ensures value { result ≡ length (round sheet.now.bytes setup.now number (journal_steps steps.now)) }
    ensures out_after { out.new ≡ over (journal_bytes (round sheet.now.bytes setup.now number (journal_steps steps.now))) out.old }
{
    let n = steps.len() / 4;
    let mut here = start(sheet.bytes());
    let mut lost = None;
    let mut at: usize = 0;
    let mut went = true;
    for k in 0..n {
        let twin = again(went, steps, 4 * k);
        let from = lost_from(lost);
        let stay = stays(
            twin,
            lost,
            here,
            steps[4 * k],
            sheet,
            setup,
            &steps[4 * from..4 * k + 4],
        );
        let going = goes(stay, here, sheet, setup, number, &steps[4 * k + 4..]);
        let wrote = write_kept(going, steps, 4 * k, &mut out[at..]);
        lost = lost_after(lost, going, steps[4 * k], here, k + 1);
        here = past(going, here, sheet, setup, steps, 4 * k);
        at += wrote;
        went = going;
    }
    at / 4
}
