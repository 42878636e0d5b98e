// The heights from which a transaction of another coin fails or is beaten beside what is above t.
ghost use Rattle.std.specs.Prelude.{◌*◌, ◌<◌, ◌≡◌};
ghost use Rattle.sheet.specs.Checked.{Checked};
ghost use Rattle.prospect.specs.Forms.Tables.{Sound, Cells};
ghost use Rattle.prospect.specs.Forms.Until.{lasting, Holds, Lasts};

use crate::{Marks, rival, table};
use attainable::{Others, round};
use sheet::field::Sheet;
use sheet::set;

// What can come where X sends transactions of the set `also`; for another than X; and the height last found with it.
#[derive(Clone, Copy)]
pub struct Found {
    pub also: u32,
    pub can: u32,
    pub elsewhere: u32,
    pub height: u32,
}

// What can come where X sends transactions of a set.
fn find(others: Others, sheet: &Sheet, also: u32) -> Found
    requires { Checked sheet.now.bytes }
    ensures also_value { result.also ≡ also }
    ensures holds { Holds sheet.now.bytes others result }
{
    let can = round::attainable(others, sheet, also);
    let elsewhere = round::attainable_elsewhere(others, sheet, also, can);
    Found {
        also: also,
        can: can,
        elsewhere: elsewhere,
        height: 0,
    }
}

// The same, not asked again where it was found last.
fn find_again(last: Found, others: Others, sheet: &Sheet, also: u32) -> Found
    requires checked { Checked sheet.now.bytes }
    requires holds { Holds sheet.now.bytes others last }
    ensures also_value { result.also ≡ also }
    ensures holds_2 { Holds sheet.now.bytes others result }
{
    if last.also == also {
        return last;
    }
    find(others, sheet, also)
}

// Whether k can last beside what is above t.
fn lasting(marks: Marks, t: usize, k: usize) -> bool
    requires t_bound { t < 32 }
    requires k_bound { k < 32 }
    ensures { result ≡ lasting marks t k }
{
    if marks.count <= k {
        return false;
    }
    if set::has(marks.gone, k) {
        return false;
    }
    if set::has(marks.payable, k) {
        return set::has(marks.foreign[t], k);
    }
    false
}

// What is found for t and k, and the height.
fn found_at(last: Found, marks: Marks, others: Others, sheet: &Sheet, t: usize, k: usize) -> Found
    requires checked { Checked sheet.now.bytes }
    requires holds { Holds sheet.now.bytes others last }
    requires sound { Sound marks }
    requires t_bound { t < 32 }
    requires k_lt_count { k < marks.count }
    ensures holds_2 { Holds sheet.now.bytes others result }
    ensures lasts { Lasts sheet.now.bytes marks others t k result.height }
{
    let found = find_again(last, others, sheet, marks.above[t] | marks.above[k]);
    let come = rival::comers(marks, found.can, found.elsewhere, k);
    let height = table::until_at(marks, come, k);
    Found {
        also: found.also,
        can: found.can,
        elsewhere: found.elsewhere,
        height: height,
    }
}

// The same, with no height where k cannot last.
fn next(last: Found, marks: Marks, others: Others, sheet: &Sheet, t: usize, k: usize) -> Found
    requires checked { Checked sheet.now.bytes }
    requires holds { Holds sheet.now.bytes others last }
    requires sound { Sound marks }
    requires t_bound { t < 32 }
    requires k_bound { k < 32 }
    ensures holds_2 { Holds sheet.now.bytes others result }
    ensures lasts { Lasts sheet.now.bytes marks others t k result.height }
{
    if lasting(marks, t, k) {
        return found_at(last, marks, others, sheet, t, k);
    }
    Found {
        also: last.also,
        can: last.can,
        elsewhere: last.elsewhere,
        height: 0,
    }
}

// The heights for all pairs.
pub fn until(marks: Marks, others: Others, sheet: &Sheet) -> [u32; 1024]
    requires checked { Checked sheet.now.bytes }
    requires sound { Sound marks }
    ensures { Cells (Lasts sheet.now.bytes marks others) (32 * marks.count) result }
{
    let mut found = find(others, sheet, 0);
    let mut table = [0u32; 1024];
    for i in 0..32 * marks.count {
        found = next(found, marks, others, sheet, i / 32, i % 32);
        table[i] = found.height;
    }
    table
}
