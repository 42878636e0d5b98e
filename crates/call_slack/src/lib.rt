// For how many blocks each party can take no step, from the position that a journal leads to.

#![tactic(auto)]

mod both;
mod due;
mod row;
mod rows;

ghost use Rattle.std.specs.Prelude.{◌≡◌};
ghost use Rattle.call_slack.specs.Answer.{slack_answer};

use call_run::journal;
use sheet::field::Sheet;
use sheet::refusal::{ACCEPTED, Refusal};

// Each party's slack: the refusal; where there is none, the rows stand at the front of the buffer.
// A number, which C gets: slack_answer of specs/Answer.antt makes it as one.
pub fn slack(sheet: &[u8], setup: &[u8], journal: &[u8], out: &mut [u8]) -> u32
    ensures value { result ≡ (slack_answer sheet.now setup.now journal.now out.old).refusal }
    ensures out_after { out.new ≡ (slack_answer sheet.now setup.now journal.now out.old).buffer }
{
    let ran = journal::ran(sheet, setup, journal);
    if ran.refusal != 0 {
        return ran.refusal;
    }
    let n = sheet::field::parties(sheet);
    if out.len() < 8 * n {
        return Refusal::BufferShort as u32;
    }
    let position = ran.position;
    rows::write_rows(position, &Sheet::of(sheet), setup, out);
    ACCEPTED
}
