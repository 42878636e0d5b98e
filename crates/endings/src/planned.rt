// The transactions of a mask and their ancestors.
ghost use Rattle.std.specs.Prelude.{◌<◌, ◌≡◌, ◌&&◌};
ghost use Rattle.laws.specs.Mask.{bit};
ghost use Rattle.sheet.specs.Field.{count};
ghost use Rattle.slots.specs.Ancestry.{is_self_or_ancestor};
ghost use Rattle.endings.specs.Plan.{planned};

use sheet::field::Sheet;
use sheet::set;
use slots::ancestry::line_of;

// Whether x is in the mask and t is of its line.
fn leads_to(sheet: &Sheet, mask: u32, t: usize, x: usize) -> bool
    requires t_bound { t < count sheet.now.bytes }
    requires x_bound { x < count sheet.now.bytes }
    ensures { result ≡ (bit mask x && is_self_or_ancestor sheet.now.bytes t x) }
{
    if set::has(mask, x) {
        return set::has(line_of(sheet, x), t);
    }
    false
}

// Whether t is in the mask or an ancestor of one that is.
pub fn is_planned(sheet: &Sheet, mask: u32, t: usize) -> bool
    requires t_bound { t < count sheet.now.bytes }
    ensures { result ≡ planned sheet.now.bytes mask t }
{
    (0..sheet.count()).any(|x| leads_to(sheet, mask, t, x))
}
