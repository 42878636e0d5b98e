// The marks of all transactions.
ghost use Rattle.std.specs.Prelude.{◌≡◌};
ghost use Rattle.sheet.specs.Field.{count};
ghost use Rattle.sheet.specs.Checked.{Fit};
ghost use Rattle.soonest.specs.Forms.Table.{Filled};
ghost use Rattle.attainable.specs.Forms.Others.{Reads};
ghost use Rattle.slack.specs.Beaten.{above};
ghost use Rattle.slack.specs.Kept.{known_at};
ghost use Rattle.prospect.specs.Forms.Marks.{Marked};

use crate::{Marks, coins, kinds, knows, locks, parents, pool, rivals};
use attainable::{Others, round};
use position::Position;
use sheet::field::Sheet;

// What a position tells for a party, from what is read of the others, what is above each transaction and what the party knows then.
pub fn mark(
    position: Position,
    sheet: &Sheet,
    setup: &[u8],
    party: u8,
    others: Others,
    ancestors: [u32; 32],
    known: [u8; 32],
) -> Marks
    requires fit { Fit sheet.now.bytes setup.now }
    requires reads { Reads sheet.now.bytes setup.now position party others }
    requires filled { Filled (λ t v. v ≡ above sheet.now.bytes position t) (count sheet.now.bytes) ancestors }
    requires filled_2 { Filled (λ t v. v ≡ known_at sheet.now.bytes position party t) (count sheet.now.bytes) known }
    ensures { Marked sheet.now.bytes setup.now position party result }
{
    let fixed = parents::fixed(sheet, others.confirmed);
    let can = round::attainable(others, sheet, 0);
    Marks {
        count: sheet.count(),
        stealth: u32::from(sheet::setup::stealth(setup)),
        gone: others.gone,
        contract: kinds::contracts(sheet),
        payable: kinds::payable(sheet, party),
        pooled: pool::pooled(position, sheet, party),
        signs: knows::signs(position, sheet, party, known),
        fixed,
        runs: parents::running(sheet, fixed, can),
        since: kinds::since_locked(sheet),
        waits: others.waits,
        apart: others.waits_elsewhere,
        lock: locks::locks(position, sheet, setup),
        rivals: rivals::rivals(sheet),
        above: ancestors,
        foreign: coins::foreign(sheet),
    }
}
