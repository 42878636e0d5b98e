// Whether what a party counts on is to be sent before the next block.
ghost use Rattle.std.specs.Prelude.{◌≡◌};
ghost use Rattle.laws.specs.Booleans.{pick};
ghost use Rattle.sheet.specs.Checked.{Fit};
ghost use Rattle.call_slack.specs.Row.{is_open, is_due};
ghost use Rattle.slack.specs.Beaten.{destination_of};

use call_run::journal;
use position::Position;
use sheet::field::Sheet;

// Whether the step of this kind, by which the party sends t, is open.
fn is_open(
    position: Position,
    sheet: &Sheet,
    setup: &[u8],
    party: u8,
    t: u8,
    to: u8,
    kind: u8,
) -> bool
    requires fit { Fit sheet.now.bytes setup.now }
    requires to_value { to ≡ destination_of sheet.now.bytes party t }
    ensures { result ≡ is_open sheet.now.bytes setup.now position party t kind }
{
    let bytes = [kind, party, t, to];
    let stepped = journal::step_at(position, sheet, setup, &bytes, 0);
    stepped.refusal == 0
}

// 1 where it is to be sent before the next block, else 0.
pub fn due(
    position: Position,
    sheet: &Sheet,
    setup: &[u8],
    party: u8,
    blocks: u32,
    t: u8,
    to: u8,
) -> u8
    requires fit { Fit sheet.now.bytes setup.now }
    requires to_value { to ≡ destination_of sheet.now.bytes party t }
    ensures { result ≡ pick (is_due sheet.now.bytes setup.now position party blocks t) 1 0 }
{
    if blocks != 0 {
        return 0;
    }
    if is_open(position, sheet, setup, party, t, to, 3) {
        return 1;
    }
    if is_open(position, sheet, setup, party, t, to, 4) {
        return 1;
    }
    0
}
