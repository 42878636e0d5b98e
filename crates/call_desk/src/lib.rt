// A whole desk in one call: the swaps of a bundle, all on one sheet.

#![tactic(auto)]

ghost use Rattle.std.specs.Prelude.{◌≡◌};
ghost use Rattle.laws.specs.Failing.{first_failing};
ghost use Rattle.sheet.specs.Refusal.{refused};
ghost use Rattle.call_desk.specs.Desk.{desk_tests, desk_answer};

use sheet::refusal::{ACCEPTED, Refusal, require};

mod answers;
mod bundle;

// The checks of the whole call: the sheet's 1 to 8, once for all swaps, then 28.
fn call_refusal(sheet: &[u8], bundle: &[u8]) -> Result<(), Refusal>
    ensures { refused result ≡ first_failing (desk_tests sheet.now bundle.now) }
{
    sheet::check::sheet_refusal(sheet)?;
    require(bundle::bundle_right(bundle), Refusal::BundleLayout)
}

// Runs every swap of a bundle: the refusal of the call; where there is none, the swaps' answers stand at the front of the buffer.
// A number, which C gets: desk_answer of specs/Desk.antt makes it as one.
pub fn desk(sheet: &[u8], bundle: &[u8], out: &mut [u8]) -> u32
    ensures value { result ≡ (desk_answer sheet.now bundle.now out.old).refusal }
    ensures out_after { out.new ≡ (desk_answer sheet.now bundle.now out.old).buffer }
{
    if let Err(refusal) = call_refusal(sheet, bundle) {
        return refusal.number();
    }
    let n = bundle::swaps(bundle);
    if out.len() < 8 * n {
        return Refusal::BufferShort as u32;
    }
    answers::write_answers(sheet, bundle, out);
    ACCEPTED
}
