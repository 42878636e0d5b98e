// The page for the wall, of the position that a journal leads to.

#![tactic(auto)]

ghost use Rattle.std.specs.Prelude.{◌≡◌};
ghost use Rattle.call_page.specs.Page.{page_answer};

use readings::reported::{REPORT_SIZE, ROW_WIDTH};
use sheet::refusal::{ACCEPTED, Refusal};

mod line;

// The page: the refusal; where there is none, its lines stand at the front of the buffer. They are laid out from the rows of the report.
// A number, which C gets: page_answer of specs/Page.antt makes it as one.
pub fn page(sheet: &[u8], setup: &[u8], journal: &[u8], out: &mut [u8]) -> u32
    ensures value { result ≡ (page_answer sheet.now setup.now journal.now out.old).refusal }
    ensures out_after { out.new ≡ (page_answer sheet.now setup.now journal.now out.old).buffer }
{
    let mut rows = [0u8; REPORT_SIZE];
    let number = call_report::report(sheet, setup, journal, &mut rows);
    if number != 0 {
        return number;
    }
    let n = sheet::field::count(sheet);
    if out.len() < 73 * (n + 1) {
        return Refusal::BufferShort as u32;
    }
    let end = ROW_WIDTH * n;
    line::write_page(&rows[..end], n, out);
    ACCEPTED
}
