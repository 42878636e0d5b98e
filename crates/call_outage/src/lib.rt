// What an outage can cost, from the position that a journal leads to.

#![tactic(auto)]

mod payees;
mod row;
mod rows;
mod verdict;

ghost use Rattle.std.specs.Prelude.{◌≡◌};
ghost use Rattle.call_outage.specs.Answer.{outage_answer};

use call_run::journal;
use sheet::field::Sheet;
use sheet::refusal::{ACCEPTED, Refusal};

// The verdicts of an outage of so many blocks: the refusal; where there is none, the rows stand at the front of the buffer.
// A number, which C gets: outage_answer of specs/Answer.antt makes it as one.
pub fn outage(sheet: &[u8], setup: &[u8], journal: &[u8], blocks: u32, out: &mut [u8]) -> u32
    ensures value { result ≡ (outage_answer sheet.now setup.now journal.now blocks out.old).refusal }
    ensures out_after { out.new ≡ (outage_answer sheet.now setup.now journal.now blocks out.old).buffer }
{
    let ran = journal::ran(sheet, setup, journal);
    if ran.refusal != 0 {
        return ran.refusal;
    }
    let n = sheet::field::count(sheet);
    if out.len() < 10 * n {
        return Refusal::BufferShort as u32;
    }
    let position = ran.position;
    rows::write_rows(position, &Sheet::of(sheet), setup, blocks, out);
    ACCEPTED
}
