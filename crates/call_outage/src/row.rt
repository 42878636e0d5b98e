// The bytes of a row.
ghost use Rattle.std.specs.Prelude.{◌≤◌, ◌≡◌, ◌∷◌, ◌++◌, length};
ghost use Rattle.laws.specs.Little.{bytes_of};
ghost use Rattle.laws.specs.Over.{over};

use output::row;

// A row's 10 bytes, at the front of the buffer.
pub fn write_row(out: &mut [u8], verdict: u8, payees: u8, block: u32, deadline: u32)
    requires { 10 ≤ length out.old }
    ensures { out.new ≡ over (verdict ∷ payees ∷ (bytes_of 4 block ++ bytes_of 4 deadline)) out.old }
{
    out[0] = verdict;
    out[1] = payees;
    row::write_pair(&mut out[2..], block, deadline);
}
