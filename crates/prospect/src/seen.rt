// The prospect of a party at a position.
ghost use Rattle.sheet.specs.Checked.{Fit};
ghost use Rattle.kept.specs.Forms.Prospect.{Seen};

use crate::{come, kinds, knows, lines, marking, mask, paid, parents, pool, table, until};
use attainable::read;
use kept::Prospect;
use position::Position;
use sheet::field::Sheet;

// What is read once for a position and a party.
pub fn prospect(position: Position, sheet: &Sheet, setup: &[u8], party: u8) -> Prospect
    requires { Fit sheet.now.bytes setup.now }
    ensures { Seen sheet.now.bytes setup.now position party result }
{
    let others = read::read(position, sheet, setup, party);
    let unconfirmed = lines::unconfirmed(sheet, others.confirmed);
    let above = lines::above(sheet, unconfirmed);
    let have = position.keys(party) | others.secrets;
    let shows = others.shows;
    let known = knows::known(shows, sheet, have, above);
    let marks = marking::mark(position, sheet, setup, party, others, above, known);
    let can = come::can(others, sheet, above);
    let elsewhere = come::elsewhere(others, sheet, above, can);
    let come = come::comers(marks, can, elsewhere);
    let foreign = marks.foreign;
    let awaited = paid::awaited(sheet, others.confirmed, party);
    Prospect {
        count: marks.count,
        mined: u32::from(position.mined),
        stealth: marks.stealth,
        paid: paid::paid(position, sheet, party),
        contract: marks.contract,
        fixed: marks.fixed,
        up: parents::parent_sets(sheet),
        line: lines::lines(sheet, unconfirmed),
        aims: paid::aims(sheet, foreign, awaited),
        only: come::only(sheet, kinds::paying(sheet), elsewhere),
        known: mask::widened(known, sheet),
        secrets: mask::widened(shows, sheet),
        lacks: pool::lacks(position, sheet, party, marks.pooled),
        fails: table::fails(marks),
        ends: table::ends(marks),
        beat: table::beats(marks, come),
        until: until::until(marks, others, sheet),
    }
}
