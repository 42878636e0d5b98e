// The parts of a bundle, and 28.
ghost use Rattle.std.specs.Prelude.{◌<◌, ◌≤◌, ◌≡◌, length};
ghost use Rattle.laws.specs.Sum.{sum_below};
ghost use Rattle.sheet.specs.Forms.Field.{Wide};
ghost use Rattle.call_desk.specs.Bundle.{swaps, length_of, bundle_right};
ghost use Rattle.call_desk.specs.Forms.Bundle.{Arrays, Length};

use sheet::little::u32_at;

// The number of swaps.
pub fn swaps(bundle: &[u8]) -> usize
    requires { 1 ≤ length bundle.now }
    ensures { Wide (swaps bundle.now) result }
{
    usize::from(bundle[0])
}

// The length of swap i's journal.
pub fn length_of(bundle: &[u8], i: usize) -> usize
    requires arrays { Arrays bundle.now }
    requires i_bound { i < swaps bundle.now }
    ensures { Length bundle.now i result }
{
    let n = swaps(bundle);
    u32_at(bundle, 1 + 4 * n + 4 * i) as usize
}

// The sum of the lengths: of at most 64 numbers of four bytes, so that it fits.
fn lengths_sum(bundle: &[u8]) -> usize
    requires { Arrays bundle.now }
    ensures { result ≡ sum_below (swaps bundle.now) (length_of bundle.now) }
{
    let mut sum: usize = 0;
    for i in 0..swaps(bundle) {
        sum += length_of(bundle, i);
    }
    sum
}

// 28: not empty, room for the arrays, at most 64 swaps, and lengths that add up to the bytes that follow.
pub fn bundle_right(bundle: &[u8]) -> bool
    ensures { result ≡ bundle_right bundle.now }
{
    if bundle.len() < 1 {
        return false;
    }
    let n = swaps(bundle);
    let journals = 1 + 8 * n;
    if bundle.len() < journals {
        return false;
    }
    if 64 < n {
        return false;
    }
    lengths_sum(bundle) == bundle.len() - journals
}
