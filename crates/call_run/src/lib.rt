// A run: of a journal from the empty journal's position, and of one from any position.

#![tactic(auto)]

ghost use Rattle.std.specs.Prelude.{◌≡◌};
ghost use Rattle.position.specs.Play.{run};
ghost use Rattle.position.specs.Answers.{run_part};

pub mod journal;
pub mod row;

// Runs a journal: the rest of it from the refused step on, empty where none is refused; the refusal; the steps accepted.
pub fn run<'a>(
    sheet: &[u8],
    setup: &[u8],
    journal: &'a [u8],
    refusal: &mut u32,
    accepted: &mut u32,
) -> &'a [u8]
    ensures result_value { result.now ≡ run_part sheet.now setup.now journal.now }
    ensures refusal_after { refusal.new ≡ (run sheet.now setup.now journal.now).refusal }
    ensures accepted_after { accepted.new ≡ (run sheet.now setup.now journal.now).accepted }
{
    let ran = journal::ran(sheet, setup, journal);
    *refusal = ran.refusal;
    *accepted = ran.accepted;
    let at = 4 * (ran.accepted as usize);
    &journal[at..]
}
