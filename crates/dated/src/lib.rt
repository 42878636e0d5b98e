// A position beside the counts of blocks mined when its transactions were first open.

#![tactic(auto)]

ghost use Rattle.std.specs.Prelude.{◌≡◌};
ghost use Rattle.sheet.specs.Field.{count};
ghost use Rattle.sheet.specs.Checked.{Fit};
ghost use Rattle.position.specs.Forms.View.{view_below};
ghost use Rattle.dated.specs.Dated.{noted, dated_start};

use position::{Position, journal};
use sheet::field::Sheet;
use slots::lock_height::NEVER;
use steps::View;

mod opens;

// "Demand 2's position is the model's beside this count": for each transaction the blocks mined when it was first open, 2,147,483,647
// where it never was. 520 bytes, without padding.
#[derive(Clone, Copy)]
pub struct Dated {
    pub position: Position,
    pub opened: [u32; 32],
}

// A position with its counts, and its view.
#[derive(Clone, Copy)]
pub struct Viewed {
    pub dated: Dated,
    pub view: View,
}

// The counts once a position is seen.
pub fn noted(
    opened: [u32; 32],
    position: Position,
    sheet: &Sheet,
    setup: &[u8],
    view: View,
) -> [u32; 32]
    requires fit { Fit sheet.now.bytes setup.now }
    requires view_value { view ≡ view_below sheet.now.bytes (count sheet.now.bytes) position }
    ensures { result ≡ noted sheet.now.bytes setup.now position opened }
{
    let n = sheet.count();
    let per_day = sheet::setup::per_day(setup);
    let mut counts = opened;
    for t in 0..n {
        if opens::stays(sheet, view, t, counts[t]) {
            continue;
        }
        let x = position.slots[t];
        let since = position.since(sheet, t);
        counts[t] = opens::first_open(sheet, per_day, view, x, since, t);
    }
    counts
}

// The empty journal's position, seen, and its view.
pub fn start(sheet: &Sheet, setup: &[u8]) -> Viewed
    requires { Fit sheet.now.bytes setup.now }
    ensures dated_value { result.dated ≡ dated_start sheet.now.bytes setup.now }
    ensures view_value { result.view ≡ view_below sheet.now.bytes (count sheet.now.bytes) result.dated.position }
{
    let position = journal::start(sheet.bytes());
    let view = journal::start_view(sheet);
    let opened = noted([NEVER; 32], position, sheet, setup, view);
    Viewed {
        dated: Dated { position, opened },
        view,
    }
}
