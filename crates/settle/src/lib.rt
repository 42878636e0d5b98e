// The position as a party can count on it before the next block: the block being filled counts as confirmed, as far as nothing can throw
// its entries out.

#![tactic(auto)]

pub mod block;
pub mod confirm;
pub mod due;
pub mod thrown;

ghost use Rattle.std.specs.Prelude.{◌<◌, ◌≡◌};
ghost use Rattle.laws.specs.Sets.{set_below};
ghost use Rattle.sheet.specs.Field.{count};
ghost use Rattle.sheet.specs.Checked.{Fit};
ghost use Rattle.slack.specs.Settled.{settles, settled};

use attainable::{read, round};
use position::Position;
use sheet::field::Sheet;

// The entries of the block that nothing can throw out.
pub fn settling(position: Position, sheet: &Sheet, setup: &[u8], party: u8) -> u32
    requires { Fit sheet.now.bytes setup.now }
    ensures { result ≡ set_below (count sheet.now.bytes) (settles sheet.now.bytes setup.now position party) }
{
    let entries = block::entries(position, sheet);
    if entries == 0 {
        return 0;
    }
    let others = read::read(position, sheet, setup, party);
    let can = round::attainable(others, sheet, 0);
    let due = due::due(position, sheet, setup, can);
    thrown::staying(sheet, entries, due)
}

// The position with these confirmed.
pub fn settled(position: Position, sheet: &Sheet, setup: &[u8], party: u8) -> Position
    requires fit { Fit sheet.now.bytes setup.now }
    requires mined_bound { position.mined < 65535 }
    ensures { result ≡ settled sheet.now.bytes setup.now position party }
{
    let members = settling(position, sheet, setup, party);
    if members == 0 {
        return position;
    }
    confirm::confirm(position, sheet, members)
}
