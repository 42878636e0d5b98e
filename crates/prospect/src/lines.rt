// The unconfirmed ones of each line.
ghost use Rattle.std.specs.Prelude.{◌<◌, ◌≡◌, not};
ghost use Rattle.std.specs.Int.Bits.{bit_and};
ghost use Rattle.laws.specs.Mask.{bit};
ghost use Rattle.laws.specs.Sets.{removed, set_below};
ghost use Rattle.sheet.specs.Field.{count};
ghost use Rattle.slots.specs.Forms.Line.{line_set};
ghost use Rattle.soonest.specs.Forms.Table.{Filled};

use sheet::field::Sheet;
use sheet::{set, table};
use slots::ancestry;

// Those that are not confirmed.
pub fn unconfirmed(sheet: &Sheet, confirmed: u32) -> u32
    ensures { result ≡ set_below (count sheet.now.bytes) (λ t. not (bit confirmed t)) }
{
    set::below(sheet.count(), |t| !set::has(confirmed, t))
}

// Those of a set that are of the line of each, in a table.
pub fn lines(sheet: &Sheet, members: u32) -> [u32; 32]
    ensures { Filled (λ t v. v ≡ bit_and members (line_set sheet.now.bytes t)) (count sheet.now.bytes) result }
{
    table::filled(sheet.count(), 0, |t| members & ancestry::line_of(sheet, t))
}

// Those that are above each, in a table.
pub fn above(sheet: &Sheet, members: u32) -> [u32; 32]
    ensures { Filled (λ t v. v ≡ bit_and members (removed (line_set sheet.now.bytes t) t)) (count sheet.now.bytes) result }
{
    table::filled(
        sheet.count(),
        0,
        |t| members & set::remove(ancestry::line_of(sheet, t), t),
    )
}
