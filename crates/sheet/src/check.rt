// The checks 1 to 8 of a sheet.
ghost use Rattle.std.specs.Prelude.{◌<◌, ◌≤◌, ◌^◌, ◌≡◌, true, length};
ghost use Rattle.laws.specs.Below.{all_below};
ghost use Rattle.laws.specs.Failing.{first_failing};
ghost use Rattle.sheet.specs.Field.{parties, count, arrays, signatures, start_mask};
ghost use Rattle.sheet.specs.Forms.Parents.{Parents};
ghost use Rattle.sheet.specs.Check.{head_right, count_right, within, masks_right, signatures_right, length_right, parent_right, entry_right, days_right, lock_right, children_right, array_tests, sheet_refusal};
ghost use Rattle.sheet.specs.Refusal.{refused};

use crate::field::Sheet;
use crate::refusal::{Refusal, require};
use crate::{field, parents, set};

// Two to the number of bits.
fn limit(bits: usize) -> usize
    requires { bits ≤ 8 }
    ensures { result ≡ 2 ^ bits }
{
    1usize << bits
}

// Whether a mask has no bit but those of the sheet's signatures.
fn within(sheet: &[u8], mask: u8) -> bool
    requires in_bounds { 5 ≤ length sheet.now }
    requires sheet_bound { signatures sheet.now ≤ 8 }
    ensures { result ≡ within sheet.now mask }
{
    usize::from(mask) < limit(usize::from(field::signatures(sheet)))
}

// 1: the head is there.
fn head_right(sheet: &[u8]) -> bool
    ensures { result ≡ head_right sheet.now }
{
    if sheet.len() < 5 {
        return false;
    }
    field::arrays(sheet) <= sheet.len()
}

// 2: 1 to 32 transactions.
fn count_right(sheet: &[u8]) -> bool
    requires { 5 ≤ length sheet.now }
    ensures { result ≡ count_right sheet.now }
{
    let n = field::count(sheet);
    1 <= n && n <= 32
}

// The start masks of all parties.
fn starts_right(sheet: &[u8]) -> bool
    requires in_bounds { 5 ≤ length sheet.now }
    requires sheet_in_bounds { arrays sheet.now ≤ length sheet.now }
    requires sheet_bound { signatures sheet.now ≤ 8 }
    ensures { result ≡ all_below (parties sheet.now) (λ k. within sheet.now (start_mask sheet.now k)) }
{
    (0..field::parties(sheet)).all(|k| within(sheet, field::start_mask(sheet, k)))
}

// The masks of the head, with 1 to 8 signatures.
fn masks_right(sheet: &[u8]) -> bool
    requires in_bounds { 5 ≤ length sheet.now }
    requires sheet_in_bounds { arrays sheet.now ≤ length sheet.now }
    requires sheet_bound { signatures sheet.now ≤ 8 }
    ensures { result ≡ masks_right sheet.now }
{
    if !within(sheet, field::secrets(sheet)) {
        return false;
    }
    starts_right(sheet)
}

// 3: 1 to 8 signatures, and the masks of the head.
fn signatures_right(sheet: &[u8]) -> bool
    requires in_bounds { 5 ≤ length sheet.now }
    requires sheet_in_bounds { arrays sheet.now ≤ length sheet.now }
    ensures { result ≡ signatures_right sheet.now }
{
    let s = field::signatures(sheet);
    if s < 1 {
        return false;
    }
    if 8 < s {
        return false;
    }
    masks_right(sheet)
}

// 4: the length that the head announces.
fn length_right(sheet: &[u8]) -> bool
    requires in_bounds { 5 ≤ length sheet.now }
    requires sheet_bound { count sheet.now ≤ 32 }
    ensures { result ≡ length_right sheet.now }
{
    sheet.len() == field::arrays(sheet) + 6 * field::count(sheet)
}

// 5: the parent is none or lower.
fn parent_right(sheet: &Sheet, t: usize) -> bool
    requires t_bound { t < count sheet.now.bytes }
    ensures { result ≡ parent_right sheet.now.bytes t }
{
    if sheet.opening(t) {
        return true;
    }
    sheet.parent(t) < t
}

// 6: payees, required signatures and veil are in range.
fn entry_right(sheet: &Sheet, t: usize) -> bool
    requires sheet_bound { signatures sheet.now.bytes ≤ 8 }
    requires t_bound { t < count sheet.now.bytes }
    ensures { result ≡ entry_right sheet.now.bytes t }
{
    if limit(sheet.parties()) <= usize::from(sheet.payees(t)) {
        return false;
    }
    let required = sheet.required(t);
    if required < 1 {
        return false;
    }
    if !within(sheet.bytes(), required) {
        return false;
    }
    sheet.veil(t) <= 1
}

// The days of a lock: 0 for type 0, else 1 to 255.
fn days_right(sheet: &Sheet, t: usize) -> bool
    requires t_bound { t < count sheet.now.bytes }
    ensures { result ≡ days_right sheet.now.bytes t }
{
    let days = sheet.days(t);
    if sheet.lock_type(t) == 0 {
        return days == 0;
    }
    1 <= days
}

// 7: the lock pair is in range, and type 2 has a parent.
fn lock_right(sheet: &Sheet, t: usize) -> bool
    requires t_bound { t < count sheet.now.bytes }
    ensures { result ≡ lock_right sheet.now.bytes t }
{
    let lock = sheet.lock_type(t);
    if 2 < lock {
        return false;
    }
    if !days_right(sheet, t) {
        return false;
    }
    if lock == 2 {
        return !sheet.opening(t);
    }
    true
}

// 8: a contract transaction has a child, and a paying one has none, where `parents` are those of all transactions.
fn children_right(sheet: &Sheet, parents: u32, t: usize) -> bool
    requires t_bound { t < count sheet.now.bytes }
    requires parents { Parents sheet.now.bytes (λ k. true) (count sheet.now.bytes) parents }
    ensures { result ≡ children_right sheet.now.bytes t }
{
    let contract = sheet.payees(t) == 0;
    contract == set::has(parents, t)
}

// The first of 5 to 8 that fails.
fn array_refusal(sheet: &Sheet) -> Result<(), Refusal>
    requires sheet_bound { signatures sheet.now.bytes ≤ 8 }
    ensures { refused result ≡ first_failing (array_tests sheet.now.bytes) }
{
    let n = sheet.count();
    let parents = parents::all_parents(sheet);
    require((0..n).all(|t| parent_right(sheet, t)), Refusal::SheetParent)?;
    require((0..n).all(|t| entry_right(sheet, t)), Refusal::SheetEntry)?;
    require((0..n).all(|t| lock_right(sheet, t)), Refusal::SheetLock)?;
    require(
        (0..n).all(|t| children_right(sheet, parents, t)),
        Refusal::SheetChildren,
    )
}

// The first of the checks 1 to 8 that fails.
pub fn sheet_refusal(sheet: &[u8]) -> Result<(), Refusal>
    ensures { refused result ≡ sheet_refusal sheet.now }
{
    require(head_right(sheet), Refusal::SheetShort)?;
    require(count_right(sheet), Refusal::SheetCount)?;
    require(signatures_right(sheet), Refusal::SheetSignatures)?;
    require(length_right(sheet), Refusal::SheetLength)?;
    array_refusal(&Sheet::of(sheet))
}
