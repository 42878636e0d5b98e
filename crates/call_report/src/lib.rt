// The report of the position that a journal leads to.

#![tactic(auto)]

ghost use Rattle.std.specs.Prelude.{◌≡◌};
ghost use Rattle.dated.specs.Report.{report_answer};

use call_run::row::run_row;
use readings::reported::ROW_WIDTH;
use sheet::field::Sheet;
use sheet::refusal::{ACCEPTED, Refusal};

// Reports: the refusal; where there is none, the rows stand at the front of the buffer.
// A number, which C gets: report_answer of dated's specs/Report.antt makes it as one.
pub fn report(sheet: &[u8], setup: &[u8], journal: &[u8], out: &mut [u8]) -> u32
    ensures value { result ≡ (report_answer sheet.now setup.now journal.now out.old).refusal }
    ensures out_after { out.new ≡ (report_answer sheet.now setup.now journal.now out.old).buffer }
{
    if let Err(refusal) = sheet::check::sheet_refusal(sheet) {
        return refusal.number();
    }
    if let Err(refusal) = call_run::journal::call_refusal(sheet, setup, journal) {
        return refusal.number();
    }
    let sheet = &Sheet::of(sheet);
    let from = dated::start(sheet, setup);
    let dated = from.dated;
    let start = dated.position;
    let counts = dated.opened;
    let run = run_row(start, counts, true, sheet, setup, from.view, journal);
    if run.refusal != 0 {
        return run.refusal;
    }
    let n = sheet.count();
    if out.len() < ROW_WIDTH * n {
        return Refusal::BufferShort as u32;
    }
    let position = run.position;
    let opened = run.opened;
    queries::report::write_report(position, run.view, opened, sheet, setup, out);
    ACCEPTED
}
