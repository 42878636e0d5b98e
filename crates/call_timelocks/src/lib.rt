// Locks in Bitcoin's own fields: nLockTime and nSequence of a sheet's transactions, for the signing boxes.

#![tactic(auto)]

ghost use Rattle.std.specs.Prelude.{◌≡◌};
ghost use Rattle.sheet.specs.Refusal.{refused};
ghost use Rattle.call_timelocks.specs.Timelocks.{field_refusal, timelocks_answer};

use sheet::check::sheet_refusal;
use sheet::field::Sheet;
use sheet::refusal::{ACCEPTED, Refusal};
use sheet::setup::{per_day, setup_refusal};

pub mod fields;
pub mod limits;

// The first of 1 to 10, 26 and 27 that fails.
fn field_refusal(sheet: &[u8], setup: &[u8], base: u32) -> Result<(), Refusal>
    ensures { refused result ≡ field_refusal sheet.now setup.now base }
{
    sheet_refusal(sheet)?;
    setup_refusal(sheet, setup)?;
    limits::limit_refusal(&Sheet::of(sheet), per_day(setup), base)
}

// nLockTime and nSequence of every transaction, over the base height: the refusal; where there is none, eight bytes for each stand at
// the front of the buffer. A number, which C gets: timelocks_answer of specs/Timelocks.antt makes it as one.
pub fn timelocks(sheet: &[u8], setup: &[u8], base: u32, out: &mut [u8]) -> u32
    ensures value { result ≡ (timelocks_answer sheet.now setup.now base out.old).refusal }
    ensures out_after { out.new ≡ (timelocks_answer sheet.now setup.now base out.old).buffer }
{
    if let Err(refusal) = field_refusal(sheet, setup, base) {
        return refusal.number();
    }
    let n = sheet::field::count(sheet);
    if out.len() < 8 * n {
        return Refusal::BufferShort as u32;
    }
    fields::write_fields(&Sheet::of(sheet), per_day(setup), base, out);
    ACCEPTED
}
