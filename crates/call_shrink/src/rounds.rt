// Rounds until one drops none, and the part that is left written.
ghost use Rattle.std.specs.Prelude.{◌*◌, ◌%◌, ◌≤◌, ◌≡◌, true, length, take};
ghost use Rattle.laws.specs.Over.{over};
ghost use Rattle.sheet.specs.Checked.{Fit};
ghost use Rattle.position.specs.Position.{start};
ghost use Rattle.position.specs.Play.{journal_steps};
ghost use Rattle.call_shrink.specs.Shrink.{still_refused, shrunk};
ghost use Rattle.call_shrink.specs.Forms.Round.{Starts, shrunk_fitted};

use crate::round::write_round;
use sheet::field::Sheet;
use sheet::refusal::{ACCEPTED, Answer, Refusal};

// These bytes, at the front of a buffer.
fn copy(from: &[u8], out: &mut [u8])
    requires { length from.now ≤ length out.old }
    ensures { out.new ≡ over from.now out.old }
{
    out[..from.len()].copy_from_slice(from);
}

// The rounds on the first n steps of the part, each written to the spare bytes and, where it dropped a step, copied back: the number of
// steps that are left.
fn rounds(
    sheet: &Sheet,
    setup: &[u8],
    number: u32,
    n: usize,
    part: &mut [u8],
    spare: &mut [u8],
) -> usize
    requires fit { Fit sheet.now.bytes setup.now }
    requires n_bound { n ≤ 1024 }
    requires n_in_bounds { 4 * n ≤ length part.old }
    requires part_in_bounds { length part.old ≤ length spare.old }
    requires part_value { still_refused sheet.now.bytes setup.now number (start sheet.now.bytes) (journal_steps (take (4 * n) part.old)) ≡ true }
    ensures { Starts (shrunk sheet.now.bytes setup.now number (journal_steps (take (4 * n) part.old))) part.new result }
{
    let mut left = n;
    loop {
        let end = 4 * left;
        let kept = write_round(sheet, setup, number, &part[..end], spare);
        if kept == left {
            return left;
        }
        let size = 4 * kept;
        copy(&spare[..size], part);
        left = kept;
    }
}

// The part that is left of a row whose last step gets the number, where the buffer has room for it.
pub fn write_shrunk(sheet: &Sheet, setup: &[u8], number: u32, row: &[u8], out: &mut [u8]) -> Answer
    requires fit { Fit sheet.now.bytes setup.now }
    requires row_len_bound { length row.now ≤ 4096 }
    requires row_len { length row.now % 4 ≡ 0 }
    requires row_value { still_refused sheet.now.bytes setup.now number (start sheet.now.bytes) (journal_steps row.now) ≡ true }
    ensures refusal_value { result.refusal ≡ (shrunk_fitted sheet.now.bytes setup.now number row.now out.old).refusal }
    ensures count_value { result.count ≡ (shrunk_fitted sheet.now.bytes setup.now number row.now out.old).count }
    ensures out_after { out.new ≡ (shrunk_fitted sheet.now.bytes setup.now number row.now out.old).buffer }
{
    let mut part = [0u8; 4096];
    let mut spare = [0u8; 4096];
    copy(row, &mut part);
    let n = rounds(sheet, setup, number, row.len() / 4, &mut part, &mut spare);
    let end = 4 * n;
    if out.len() < end {
        return Answer {
            refusal: Refusal::BufferShort as u32,
            count: 0,
        };
    }
    copy(&part[..end], out);
    Answer {
        refusal: ACCEPTED,
        count: n as u32,
    }
}
