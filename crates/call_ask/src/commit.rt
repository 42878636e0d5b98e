// Commit: the journal that a buffer starts with is run, the step tried behind it, and written there.
ghost use Rattle.std.specs.Prelude.{◌≤◌, ◌≡◌, length};
ghost use Rattle.laws.specs.Failing.{first_failing};
ghost use Rattle.laws.specs.Over.{over};
ghost use Rattle.call_ask.specs.Commit.{commit_run, commit_tests, commit_answer};

use crate::ask::{length_right, open_run, step_number};
use position::Ran;
use sheet::field::Sheet;
use sheet::refusal::{ACCEPTED, Refusal};

// The run of the journal, the first n bytes of the buffer.
fn commit_run(sheet: &[u8], setup: &[u8], buffer: &[u8], n: usize) -> Ran
    ensures { result ≡ commit_run sheet.now setup.now buffer.now n }
{
    if buffer.len() < n {
        return open_run(sheet, setup, false, buffer);
    }
    open_run(sheet, setup, length_right(n), &buffer[..n])
}

// The refusal of a commit, 0 where the step is to be written: a number, since a run and a step answer theirs as one.
fn commit_refusal(
    sheet: &[u8],
    setup: &[u8],
    step: &[u8],
    count: u32,
    buffer: &[u8],
    n: usize,
) -> u32
    ensures { result ≡ first_failing (commit_tests sheet.now setup.now (commit_run sheet.now setup.now buffer.now n) step.now count buffer.now n) }
{
    let ran = commit_run(sheet, setup, buffer, n);
    if ran.refusal != 0 {
        return ran.refusal;
    }
    if count != ran.accepted {
        return Refusal::CountStale as u32;
    }
    let position = ran.position;
    let of_step = step_number(position, &Sheet::of(sheet), setup, step);
    if of_step != 0 {
        return of_step;
    }
    if buffer.len() - n < 4 {
        return Refusal::BufferShort as u32;
    }
    ACCEPTED
}

// Four bytes, at the front of a buffer.
fn write_step(step: &[u8], out: &mut [u8])
    requires step_len { length step.now ≡ 4 }
    requires in_bounds { 4 ≤ length out.old }
    ensures { out.new ≡ over step.now out.old }
{
    out[0] = step[0];
    out[1] = step[1];
    out[2] = step[2];
    out[3] = step[3];
}

// Commits a step to the journal of so many bytes that the buffer starts with: the refusal; where there is none, the step stands behind
// the journal. A number, which C gets: commit_answer of specs/Commit.antt makes it as one.
pub fn commit(
    sheet: &[u8],
    setup: &[u8],
    step: &[u8],
    count: u32,
    buffer: &mut [u8],
    size: u32,
) -> u32
    ensures value { result ≡ (commit_answer sheet.now setup.now step.now count buffer.old size).refusal }
    ensures buffer_after { buffer.new ≡ (commit_answer sheet.now setup.now step.now count buffer.old size).buffer }
{
    let n = size as usize;
    let refused = commit_refusal(sheet, setup, step, count, &buffer[..], n);
    if refused != 0 {
        return refused;
    }
    write_step(step, &mut buffer[n..]);
    ACCEPTED
}
