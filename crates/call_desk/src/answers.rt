// The answers of a bundle's swaps, written one after the other.
ghost use Rattle.std.specs.Prelude.{◌≤◌, ◌*◌, ◌≡◌, true, length};
ghost use Rattle.laws.specs.Over.{over};
ghost use Rattle.sheet.specs.Refusal.{accepted};
ghost use Rattle.sheet.specs.Check.{sheet_refusal};
ghost use Rattle.call_desk.specs.Bundle.{swaps, bundle_right};
ghost use Rattle.call_desk.specs.Desk.{swap_run, desk_bytes};
ghost use Rattle.call_desk.specs.Forms.Bundle.{Stands};

use crate::bundle;
use call_run::journal::ran_checked;
use output::row::write_pair;
use position::Ran;

// The run of swap i, whose journal has `size` bytes from `start` on.
fn swap_ran(sheet: &[u8], bundle: &[u8], i: usize, start: usize, size: usize) -> Ran
    requires sheet_value { sheet_refusal sheet.now ≡ accepted }
    requires stands { Stands bundle.now i start size }
    ensures { result ≡ swap_run sheet.now bundle.now i }
{
    let at = 1 + 4 * i;
    ran_checked(sheet, &bundle[at..at + 4], &bundle[start..start + size])
}

// The answers of all swaps, refused ones too, at the front of the buffer.
pub fn write_answers(sheet: &[u8], bundle: &[u8], out: &mut [u8])
    requires sheet_value { sheet_refusal sheet.now ≡ accepted }
    requires bundle_value { bundle_right bundle.now ≡ true }
    requires bundle_in_bounds { 8 * swaps bundle.now ≤ length out.old }
    ensures { out.new ≡ over (desk_bytes sheet.now bundle.now) out.old }
{
    let n = bundle::swaps(bundle);
    let mut start = 1 + 8 * n;
    for i in 0..n {
        let size = bundle::length_of(bundle, i);
        let ran = swap_ran(sheet, bundle, i, start, size);
        write_pair(&mut out[8 * i..], ran.refusal, ran.accepted);
        start += size;
    }
}
