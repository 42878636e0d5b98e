// The bytes of a row.
ghost use Rattle.std.specs.Prelude.{◌≤◌, ◌≡◌, [], ◌∷◌, ◌++◌, length};
ghost use Rattle.laws.specs.Little.{bytes_of};
ghost use Rattle.laws.specs.Over.{over};

use output::row;

// What is counted on: three bytes, and one that is 0.
fn write_counted(out: &mut [u8], t: u8, to: u8, due: u8)
    requires { 4 ≤ length out.old }
    ensures { out.new ≡ over (t ∷ to ∷ due ∷ 0 ∷ []) out.old }
{
    out[0] = t;
    out[1] = to;
    out[2] = due;
    out[3] = 0;
}

// A row's 8 bytes, at the front of the buffer.
pub fn write_row(out: &mut [u8], blocks: u32, t: u8, to: u8, due: u8)
    requires { 8 ≤ length out.old }
    ensures { out.new ≡ over (bytes_of 4 blocks ++ (t ∷ to ∷ due ∷ 0 ∷ [])) out.old }
{
    row::write_number(out, blocks);
    write_counted(&mut out[4..], t, to, due);
}
