// A list of steps played from the empty journal's position, refused ones passed over.
ghost use Rattle.std.specs.Prelude.{◌+◌, ◌≤◌, ◌≡◌, length};
ghost use Rattle.sheet.specs.Checked.{Fit};
ghost use Rattle.position.specs.Position.{start};
ghost use Rattle.position.specs.Play.{journal_steps, play, accepted_of};
ghost use Rattle.position.specs.Forms.Journal.{step_at};
ghost use Rattle.claim_history.specs.Forms.Steps.{played_one};

use call_run::journal::step_at;
use position::{Position, journal};
use sheet::field::Sheet;

// The position after the steps so far, and the number of those accepted.
#[derive(Clone, Copy)]
pub struct Played {
    pub position: Position,
    pub accepted: usize,
}

// One more step, the one that starts at byte i.
fn play_one(played: Played, sheet: &Sheet, setup: &[u8], steps: &[u8], i: usize) -> Played
    requires fit { Fit sheet.now.bytes setup.now }
    requires i_in_bounds { i + 4 ≤ length steps.now }
    requires accepted_le_i { played.accepted ≤ i }
    ensures { result ≡ played_one sheet.now.bytes setup.now played (step_at steps.now i) }
{
    let position = played.position;
    let stepped = step_at(position, sheet, setup, steps, i);
    let next = stepped.position;
    let accepted = played.accepted + usize::from(stepped.refusal == 0);
    Played {
        position: next,
        accepted,
    }
}

// Every whole group of four bytes, one after the other.
pub fn play_steps(sheet: &Sheet, setup: &[u8], steps: &[u8]) -> Played
    requires { Fit sheet.now.bytes setup.now }
    ensures position_value { result.position ≡ play sheet.now.bytes setup.now (journal_steps steps.now) (start sheet.now.bytes) }
    ensures accepted_value { result.accepted ≡ length (accepted_of sheet.now.bytes setup.now (journal_steps steps.now) (start sheet.now.bytes)) }
{
    let n = steps.len() / 4;
    let mut played = Played {
        position: journal::start(sheet.bytes()),
        accepted: 0,
    };
    for k in 0..n {
        played = play_one(played, sheet, setup, steps, 4 * k);
    }
    played
}
