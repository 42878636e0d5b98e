// When an ending could come at the earliest.

#![tactic(auto)]

ghost use Rattle.std.specs.Prelude.{◌≡◌};
ghost use Rattle.sheet.specs.Refusal.{refused};
ghost use Rattle.call_earliest.specs.Answer.{earliest_refusal, earliest_answer};

use endings::ending::ending_refusal;
use sheet::check::sheet_refusal;
use sheet::field::Sheet;
use sheet::refusal::{Answer, Refusal};
use sheet::setup::setup_refusal;

pub mod members;
pub mod plan;

// The first of 1 to 10, 33 and 34 that fails.
fn earliest_refusal(sheet: &[u8], setup: &[u8], mask: u32, dests: &[u8]) -> Result<(), Refusal>
    ensures { refused result ≡ earliest_refusal sheet.now setup.now mask dests.now }
{
    sheet_refusal(sheet)?;
    setup_refusal(sheet, setup)?;
    ending_refusal(&Sheet::of(sheet), setup, mask, dests)
}

// Writes the block list that confirms the transactions of a mask and their ancestors, each at its earliest block: the refusal, and
// the entries written to the front of the buffer.
pub fn earliest(sheet: &[u8], setup: &[u8], mask: u32, dests: &[u8], out: &mut [u8]) -> Answer
    ensures refusal_value { result.refusal ≡ (earliest_answer sheet.now setup.now mask dests.now out.old).refusal }
    ensures count_value { result.count ≡ (earliest_answer sheet.now setup.now mask dests.now out.old).count }
    ensures out_after { out.new ≡ (earliest_answer sheet.now setup.now mask dests.now out.old).buffer }
{
    if let Err(refusal) = earliest_refusal(sheet, setup, mask, dests) {
        return Answer {
            refusal: refusal.number(),
            count: 0,
        };
    }
    plan::write_plan(
        &Sheet::of(sheet),
        sheet::setup::per_day(setup),
        mask,
        dests,
        out,
    )
}
