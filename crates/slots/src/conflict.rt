// Conflicts (document 01: rivals), against a set of transactions.
ghost use Rattle.std.specs.Prelude.{◌<◌, ◌≡◌, false};
ghost use Rattle.laws.specs.Mask.{bit};
ghost use Rattle.laws.specs.Sets.{set_below};
ghost use Rattle.sheet.specs.Field.{count};
ghost use Rattle.sheet.specs.Checked.{Checked};
ghost use Rattle.slots.specs.Conflict.{conflict_in, other_conflict_in};
ghost use Rattle.slots.specs.Forms.Conflict.{found_in};
ghost use Rattle.sheet.specs.Forms.Parents.{is_parent_below, Parents};

use crate::next;
use sheet::field::Sheet;
use sheet::{parents, set};

// Whether a child of `up` is in the set. Children have higher numbers.
fn child_in(sheet: &Sheet, members: u32, up: usize) -> bool
    requires checked { Checked sheet.now.bytes }
    requires up_bound { up < count sheet.now.bytes }
    ensures { result ≡ is_parent_below sheet.now.bytes (bit members) (count sheet.now.bytes) up }
{
    let n = sheet.count();
    next::members_from(members, up + 1, n).any(|k| sheet.parent(k) == up)
}

// Whether a rival of t is in the set. An opening rivals only itself.
pub fn conflict_in(sheet: &Sheet, members: u32, t: usize) -> bool
    requires checked { Checked sheet.now.bytes }
    requires t_bound { t < count sheet.now.bytes }
    ensures { result ≡ conflict_in sheet.now.bytes (bit members) t }
{
    if sheet.opening(t) {
        return set::has(members, t);
    }
    child_in(sheet, members, sheet.parent(t))
}

// Whether a rival of t but t itself is in the set.
fn other_conflict_in(sheet: &Sheet, members: u32, t: usize) -> bool
    requires checked { Checked sheet.now.bytes }
    requires t_bound { t < count sheet.now.bytes }
    ensures { result ≡ other_conflict_in sheet.now.bytes (bit members) t }
{
    conflict_in(sheet, set::remove(members, t), t)
}

// Whether a rival of t is in the set, t itself not being there, where `parents` are those of its members. An opening rivals only itself.
fn conflict_by(sheet: &Sheet, members: u32, parents: u32, t: usize) -> bool
    requires checked { Checked sheet.now.bytes }
    requires t_bound { t < count sheet.now.bytes }
    requires parents { Parents sheet.now.bytes (bit members) (count sheet.now.bytes) parents }
    requires t_value { bit members t ≡ false }
    ensures { result ≡ conflict_in sheet.now.bytes (bit members) t }
{
    let up = sheet.parent(t);
    if up < 32 {
        return set::has(parents, up);
    }
    false
}

// Whether a rival of t, or with `others` a rival but t itself, is in the set, where `parents` are those of its members.
fn found_by(sheet: &Sheet, members: u32, parents: u32, others: bool, t: usize) -> bool
    requires checked { Checked sheet.now.bytes }
    requires t_bound { t < count sheet.now.bytes }
    requires parents { Parents sheet.now.bytes (bit members) (count sheet.now.bytes) parents }
    ensures { result ≡ found_in sheet.now.bytes (bit members) others t }
{
    if !set::has(members, t) {
        return conflict_by(sheet, members, parents, t);
    }
    if others {
        return other_conflict_in(sheet, members, t);
    }
    true
}

// The transactions that have a rival in the set, or with `others` a rival but themselves.
pub fn conflicts_of(sheet: &Sheet, members: u32, others: bool) -> u32
    requires { Checked sheet.now.bytes }
    ensures { result ≡ set_below (count sheet.now.bytes) (found_in sheet.now.bytes (bit members) others) }
{
    if members == 0 {
        return 0;
    }
    let parents = parents::parents_of(sheet, members);
    set::below(
        sheet.count(),
        |t| found_by(sheet, members, parents, others, t),
    )
}
