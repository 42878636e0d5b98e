// Demand 3 of the engine: any list of steps played, its accepted steps written and reported.

#![tactic(auto)]

ghost use Rattle.std.specs.Prelude.{◌≡◌};
ghost use Rattle.position.specs.Position.{start};
ghost use Rattle.claim_history.specs.Promise.{nobodies, Demand3};

use position::{Position, journal};
use readings::reported::ROW_WIDTH;
use sheet::field::Sheet;
use sheet::refusal::{ACCEPTED, Refusal};

mod held;
mod play;
mod write;

// The number, the report's number, the position after the last step, and each coin's holder as read from it and from the report.
#[derive(Clone, Copy)]
pub struct Outcome {
    // a number, as in Demand3 of specs/Promise.antt
    pub number: u32,
    pub report: u32,
    pub position: Position,
    pub held: [u8; 32],
    pub reported: [u8; 32],
}

// What comes back with a number: the empty journal's position, and nobody as holder.
fn unplayed(sheet: &[u8], number: u32) -> Outcome
    ensures { result ≡ record { number = number; report = 0; position = start sheet.now; held = nobodies; reported = nobodies } }
{
    Outcome {
        number,
        report: 0,
        position: journal::start(sheet),
        held: [255u8; 32],
        reported: [255u8; 32],
    }
}

// Plays every whole group of four bytes as a step, refused ones passed over; writes the accepted ones, and the report on them; reads the
// holders from both.
pub fn history(
    sheet: &[u8],
    setup: &[u8],
    steps: &[u8],
    accepted: &mut [u8],
    report: &mut [u8],
) -> Outcome
    ensures { Demand3 sheet.now setup.now steps.now accepted.old report.old result accepted.new report.new }
{
    if let Err(refusal) = sheet::check::sheet_refusal(sheet) {
        return unplayed(sheet, refusal.number());
    }
    if let Err(refusal) = sheet::setup::setup_refusal(sheet, setup) {
        return unplayed(sheet, refusal.number());
    }
    let known = &Sheet::of(sheet);
    let played = play::play_steps(known, setup, steps);
    let position = played.position;
    let used = 4 * played.accepted;
    if accepted.len() < used {
        return unplayed(sheet, Refusal::BufferShort as u32);
    }
    if report.len() < ROW_WIDTH * sheet::field::count(sheet) {
        return unplayed(sheet, Refusal::BufferShort as u32);
    }
    write::write_accepted(known, setup, steps, accepted);
    let answer = call_report::report(sheet, setup, &accepted[..used], report);
    let held = held::holders_in(position, known);
    let reported = held::reported_holders(answer, known, report);
    Outcome {
        number: ACCEPTED,
        report: answer,
        position,
        held,
        reported,
    }
}
