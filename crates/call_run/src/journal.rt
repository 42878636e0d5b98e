// A journal run: what all calls that take one do first.
ghost use Rattle.std.specs.Prelude.{◌+◌, ◌≤◌, ◌≡◌, length};
ghost use Rattle.laws.specs.Failing.{first_failing};
ghost use Rattle.sheet.specs.Refusal.{accepted, refused};
ghost use Rattle.sheet.specs.Check.{sheet_refusal};
ghost use Rattle.sheet.specs.Field.{count};
ghost use Rattle.sheet.specs.Checked.{Fit};
ghost use Rattle.position.specs.Forms.View.{view_below};
ghost use Rattle.position.specs.Play.{journal_steps, step, run_from, journal_right, call_tests, run};
ghost use Rattle.position.specs.Forms.Journal.{step_at};

use crate::row::run_row;
use position::journal::{start, start_view};
use position::{Position, Ran, Stepped};
use sheet::field::Sheet;
use sheet::refusal::{ACCEPTED, Refusal, require};
use steps::View;

// 24: whole steps, and no more bytes than a journal may have.
fn journal_right(journal: &[u8]) -> bool
    ensures { result ≡ journal_right journal.now }
{
    if journal.len() % 4 != 0 {
        return false;
    }
    journal.len() <= 65536
}

// The checks before any step, on a sheet that passed its own: 9, 32, 10 and 24.
pub fn call_refusal(sheet: &[u8], setup: &[u8], journal: &[u8]) -> Result<(), Refusal>
    requires { sheet_refusal sheet.now ≡ accepted }
    ensures { refused result ≡ first_failing (call_tests sheet.now setup.now journal.now) }
{
    sheet::setup::setup_refusal(sheet, setup)?;
    require(journal_right(journal), Refusal::JournalLength)
}

// The answer where no step is played.
fn without_step(refusal: u32, position: Position) -> Ran
    ensures { result ≡ record { refusal = refusal; accepted = 0; position = position } }
{
    Ran {
        refusal,
        accepted: 0,
        position,
    }
}

// The steps of a journal up to the first refused one, from a position on, whose view this is: the refusal, the steps accepted, and the
// position after these. No counts are asked for.
fn run_seen(from: Position, sheet: &Sheet, setup: &[u8], seen: View, journal: &[u8]) -> Ran
    requires fit { Fit sheet.now.bytes setup.now }
    requires seen_value { seen ≡ view_below sheet.now.bytes (count sheet.now.bytes) from }
    requires journal_len_bound { length journal.now ≤ 65536 }
    ensures { result ≡ run_from sheet.now.bytes setup.now (journal_steps journal.now) 0 from }
{
    let ran = run_row(from, [0; 32], false, sheet, setup, seen, journal);
    let position = ran.position;
    Ran {
        refusal: ran.refusal,
        accepted: ran.accepted,
        position,
    }
}

// The same, with the view made here.
pub fn run_from(from: Position, sheet: &Sheet, setup: &[u8], journal: &[u8]) -> Ran
    requires fit { Fit sheet.now.bytes setup.now }
    requires journal_len_bound { length journal.now ≤ 65536 }
    ensures { result ≡ run_from sheet.now.bytes setup.now (journal_steps journal.now) 0 from }
{
    let seen = from.view(sheet);
    run_seen(from, sheet, setup, seen, journal)
}

// The step that starts at byte i of any bytes, run as a journal of one step: the refusal, and the position after it, whole, accepted or not.
pub fn step_at(position: Position, sheet: &Sheet, setup: &[u8], journal: &[u8], i: usize) -> Stepped
    requires fit { Fit sheet.now.bytes setup.now }
    requires i_in_bounds { i + 4 ≤ length journal.now }
    ensures { result ≡ step sheet.now.bytes setup.now position (step_at journal.now i) }
{
    let end = i + 4;
    let ran = run_from(position, sheet, setup, &journal[i..end]);
    let after = ran.position;
    Stepped {
        refusal: ran.refusal,
        position: after,
    }
}

// The run of a journal from the empty journal's position, after the other checks, on a sheet that passed its own.
pub fn ran_checked(sheet: &[u8], setup: &[u8], journal: &[u8]) -> Ran
    requires { sheet_refusal sheet.now ≡ accepted }
    ensures { result ≡ run sheet.now setup.now journal.now }
{
    let checked = call_refusal(sheet, setup, journal);
    let position = start(sheet);
    if let Err(refusal) = checked {
        return without_step(refusal.number(), position);
    }
    if journal.len() == 0 {
        return without_step(ACCEPTED, position);
    }
    let sheet = &Sheet::of(sheet);
    let seen = start_view(sheet);
    run_seen(position, sheet, setup, seen, journal)
}

// The run of a journal from the empty journal's position, after all checks. Compiled into each call, so that its answer is not copied once
// more.
#[inline(always)]
pub fn ran(sheet: &[u8], setup: &[u8], journal: &[u8]) -> Ran
    ensures { result ≡ run sheet.now setup.now journal.now }
{
    if let Err(refusal) = sheet::check::sheet_refusal(sheet) {
        return without_step(refusal.number(), start(sheet));
    }
    ran_checked(sheet, setup, journal)
}
