// Rivals, two by two.
ghost use Rattle.std.specs.Prelude.{◌<◌, ◌≡◌};
ghost use Rattle.sheet.specs.Field.{count};
ghost use Rattle.slots.specs.Conflict.{conflict};

use sheet::field::Sheet;

// Whether k is a rival of t: t itself, or another child of its parent.
pub fn conflict(sheet: &Sheet, k: usize, t: usize) -> bool
    requires k_bound { k < count sheet.now.bytes }
    requires t_bound { t < count sheet.now.bytes }
    ensures { result ≡ conflict sheet.now.bytes k t }
{
    if k == t {
        return true;
    }
    if sheet.opening(k) {
        return false;
    }
    sheet.parent(k) == sheet.parent(t)
}
