// The few steps that matter: of a refused journal, the part that is left when each step that can go has gone.

#![tactic(auto)]

ghost use Rattle.std.specs.Prelude.{◌≡◌};
ghost use Rattle.laws.specs.Failing.{first_failing};
ghost use Rattle.sheet.specs.Refusal.{refused};
ghost use Rattle.call_shrink.specs.Shrink.{long_tests, shrink_answer};

use call_run::journal::{call_refusal, run_from};
use position::journal::start;
use sheet::check::sheet_refusal;
use sheet::field::Sheet;
use sheet::refusal::{Answer, Refusal, require};

mod round;
mod rounds;
mod same;

// The checks before any step: 1 to 10, 24 and 36.
fn long_refusal(sheet: &[u8], setup: &[u8], journal: &[u8]) -> Result<(), Refusal>
    ensures { refused result ≡ first_failing (long_tests sheet.now setup.now journal.now) }
{
    sheet_refusal(sheet)?;
    call_refusal(sheet, setup, journal)?;
    require(journal.len() <= 4096, Refusal::JournalLong)
}

// Shrinks a refused journal: the refusal, and the steps written to the front of the buffer.
pub fn shrink(sheet: &[u8], setup: &[u8], journal: &[u8], out: &mut [u8]) -> Answer
    ensures refusal_value { result.refusal ≡ (shrink_answer sheet.now setup.now journal.now out.old).refusal }
    ensures count_value { result.count ≡ (shrink_answer sheet.now setup.now journal.now out.old).count }
    ensures out_after { out.new ≡ (shrink_answer sheet.now setup.now journal.now out.old).buffer }
{
    if let Err(refusal) = long_refusal(sheet, setup, journal) {
        return Answer {
            refusal: refusal.number(),
            count: 0,
        };
    }
    let known = &Sheet::of(sheet);
    let ran = run_from(start(sheet), known, setup, journal);
    if ran.refusal == 0 {
        return Answer {
            refusal: Refusal::NoneRefused as u32,
            count: 0,
        };
    }
    let end = 4 * (ran.accepted as usize) + 4;
    rounds::write_shrunk(known, setup, ran.refusal, &journal[..end], out)
}
