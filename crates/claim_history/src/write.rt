// The accepted steps of a list, written.
ghost use Rattle.std.specs.Prelude.{◌+◌, ◌≤◌, ◌≡◌, length};
ghost use Rattle.laws.specs.Over.{over};
ghost use Rattle.sheet.specs.Checked.{Fit};
ghost use Rattle.position.specs.Position.{start};
ghost use Rattle.position.specs.Play.{journal_steps, journal_bytes, accepted_of};
ghost use Rattle.position.specs.Forms.Journal.{step_at};
ghost use Rattle.claim_history.specs.Forms.Steps.{taken};

use call_run::journal::step_at;
use output::open;
use position::journal;
use sheet::field::Sheet;

// The four bytes from byte i on, if their step was accepted; the answer is their number.
fn write_taken(refusal: u32, steps: &[u8], i: usize, out: &mut [u8]) -> usize
    requires i_in_bounds { i + 4 ≤ length steps.now }
    requires i_in_bounds_2 { length (journal_bytes (taken refusal (step_at steps.now i))) ≤ length out.old }
    ensures value { result ≡ length (journal_bytes (taken refusal (step_at steps.now i))) }
    ensures out_after { out.new ≡ over (journal_bytes (taken refusal (step_at steps.now i))) out.old }
{
    open::write_step(
        refusal == 0,
        steps[i],
        steps[i + 1],
        steps[i + 2],
        steps[i + 3],
        out,
    )
}

// The accepted steps, at the front of the buffer.
pub fn write_accepted(sheet: &Sheet, setup: &[u8], steps: &[u8], out: &mut [u8])
    requires fit { Fit sheet.now.bytes setup.now }
    requires sheet_in_bounds { length (journal_bytes (accepted_of sheet.now.bytes setup.now (journal_steps steps.now) (start sheet.now.bytes))) ≤ length out.old }
    ensures { out.new ≡ over (journal_bytes (accepted_of sheet.now.bytes setup.now (journal_steps steps.now) (start sheet.now.bytes))) out.old }
{
    let n = steps.len() / 4;
    let mut here = journal::start(sheet.bytes());
    let mut at: usize = 0;
    for k in 0..n {
        let stepped = step_at(here, sheet, setup, steps, 4 * k);
        here = stepped.position;
        let wrote = write_taken(stepped.refusal, steps, 4 * k, &mut out[at..]);
        at += wrote;
    }
}
