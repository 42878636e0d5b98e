// The position that a journal starts from, and its view.
ghost use Rattle.std.specs.Prelude.{◌≡◌};
ghost use Rattle.sheet.specs.Field.{count};
ghost use Rattle.sheet.specs.Checked.{Checked};
ghost use Rattle.position.specs.Forms.View.{view_below};
ghost use Rattle.position.specs.Position.{start};

use crate::Position;
use sheet::field::Sheet;
use slots::{Slot, expiring};
use steps::View;

// The empty journal's position: the masks held at the start, and nothing else.
pub fn start(sheet: &[u8]) -> Position
    ensures { result ≡ start sheet.now }
{
    let empty = Slot {
        pool: 0,
        block: 0,
        confirmed: 0,
        alice_made: 0,
        bob_made: 0,
        carol_made: 0,
        alice: 0,
        bob: 0,
        carol: 0,
        contract: 0,
        height: 0,
    };
    let alice = sheet::field::start_keys(sheet, 0);
    let bob = sheet::field::start_keys(sheet, 1);
    let carol = sheet::field::start_keys(sheet, 3);
    Position {
        slots: [empty; 32],
        mined: 0,
        keys: [alice, bob, 0, carol, 0, 0],
    }
}

// The view of that position.
pub fn start_view(sheet: &Sheet) -> View
    requires { Checked sheet.now.bytes }
    ensures { result ≡ view_below sheet.now.bytes (count sheet.now.bytes) (start sheet.now.bytes) }
{
    let position = start(sheet.bytes());
    let keys = position.keys;
    View {
        pool: 0,
        block: 0,
        confirmed: 0,
        expiring: expiring::expiring(sheet),
        mined: 0,
        shared: 0,
        keys,
    }
}
