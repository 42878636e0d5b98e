// The list of open steps.

#![tactic(auto)]

ghost use Rattle.std.specs.Prelude.{◌≡◌};
ghost use Rattle.position.specs.Answers.{list_answer};

use call_run::journal;
use sheet::field::Sheet;
use sheet::refusal::Answer;

mod listing;

// Lists the open steps of the position after a journal: the refusal, and the steps written to the front of the buffer.
pub fn list(sheet: &[u8], setup: &[u8], journal: &[u8], out: &mut [u8]) -> Answer
    ensures refusal_value { result.refusal ≡ (list_answer sheet.now setup.now journal.now out.old).refusal }
    ensures count_value { result.count ≡ (list_answer sheet.now setup.now journal.now out.old).count }
    ensures out_after { out.new ≡ (list_answer sheet.now setup.now journal.now out.old).buffer }
{
    let ran = journal::ran(sheet, setup, journal);
    if ran.refusal != 0 {
        return Answer {
            refusal: ran.refusal,
            count: 0,
        };
    }
    listing::write_list(ran.position, &Sheet::of(sheet), setup, out)
}
