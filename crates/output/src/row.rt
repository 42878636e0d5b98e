// Numbers in four bytes, and the bytes of a report's row.
ghost use Rattle.std.specs.Prelude.{◌≤◌, ◌≡◌, ◌++◌, length};
ghost use Rattle.laws.specs.Little.{bytes_of};
ghost use Rattle.laws.specs.Over.{over};
ghost use Rattle.output.specs.Forms.Row.{row_bytes};

// The four bytes of a number, the lowest first.
pub fn write_number(out: &mut [u8], x: u32)
    requires { 4 ≤ length out.old }
    ensures { out.new ≡ over (bytes_of 4 x) out.old }
{
    out[..4].copy_from_slice(&x.to_le_bytes());
}

// Two numbers, one after the other.
pub fn write_pair(out: &mut [u8], first: u32, second: u32)
    requires { 8 ≤ length out.old }
    ensures { out.new ≡ over (bytes_of 4 first ++ bytes_of 4 second) out.old }
{
    write_number(out, first);
    write_number(&mut out[4..], second);
}

// The bytes of a row, at the front of the buffer.
pub fn write_row(
    out: &mut [u8],
    status: u8,
    payee: u8,
    block: u32,
    lock: u32,
    deadline: u32,
    opened: u32,
)
    requires { length (row_bytes status payee block lock deadline opened) ≤ length out.old }
    ensures { out.new ≡ over (row_bytes status payee block lock deadline opened) out.old }
{
    out[0] = status;
    out[1] = payee;
    write_pair(&mut out[2..], block, lock);
    write_pair(&mut out[10..], deadline, opened);
}
