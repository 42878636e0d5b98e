// Ask: the journal is run, and the step tried behind it.
ghost use Rattle.std.specs.Prelude.{◌≡◌, false};
ghost use Rattle.laws.specs.Failing.{first_failing};
ghost use Rattle.sheet.specs.Refusal.{refused};
ghost use Rattle.sheet.specs.Checked.{Fit};
ghost use Rattle.call_ask.specs.Ask.{length_right, open_tests, open_run, step_number, ask_answer};

use call_run::journal::{ran, step_at};
use position::journal::start;
use position::{Position, Ran};
use sheet::check::sheet_refusal;
use sheet::field::Sheet;
use sheet::refusal::{Answer, Refusal, number_of};
use sheet::setup::setup_refusal;

// 24: whole steps, and room for one more.
pub fn length_right(n: usize) -> bool
    ensures { result ≡ length_right n }
{
    if n % 4 != 0 {
        return false;
    }
    n < 65536
}

// The refusal of a call whose journal has a wrong length: 1 to 10 before 24.
fn length_refusal(sheet: &[u8], setup: &[u8]) -> Result<(), Refusal>
    ensures { refused result ≡ first_failing (open_tests sheet.now setup.now false) }
{
    sheet_refusal(sheet)?;
    setup_refusal(sheet, setup)?;
    Err(Refusal::JournalLength)
}

// The run of a journal, where its length is right.
pub fn open_run(sheet: &[u8], setup: &[u8], right: bool, journal: &[u8]) -> Ran
    ensures { result ≡ open_run sheet.now setup.now right journal.now }
{
    if right {
        return ran(sheet, setup, journal);
    }
    Ran {
        refusal: number_of(length_refusal(sheet, setup)),
        accepted: 0,
        position: start(sheet),
    }
}

// The step's own refusal on a position: a number, as in step_number of specs/Ask.antt.
pub fn step_number(position: Position, sheet: &Sheet, setup: &[u8], step: &[u8]) -> u32
    requires { Fit sheet.now.bytes setup.now }
    ensures { result ≡ step_number sheet.now.bytes setup.now position step.now }
{
    if step.len() != 4 {
        return Refusal::StepField as u32;
    }
    let stepped = step_at(position, sheet, setup, step, 0);
    stepped.refusal
}

// Asks whether a step would pass after a journal: the refusal, and the steps in the journal; where the journal is refused, run's count.
pub fn ask(sheet: &[u8], setup: &[u8], journal: &[u8], step: &[u8]) -> Answer
    ensures { result ≡ ask_answer sheet.now setup.now journal.now step.now }
{
    let right = length_right(journal.len());
    let ran = open_run(sheet, setup, right, journal);
    let count = ran.accepted;
    if ran.refusal != 0 {
        return Answer {
            refusal: ran.refusal,
            count,
        };
    }
    let position = ran.position;
    Answer {
        refusal: step_number(position, &Sheet::of(sheet), setup, step),
        count,
    }
}
