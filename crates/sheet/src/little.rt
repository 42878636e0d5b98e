// Numbers in two and four bytes: little-endian.
ghost use Rattle.std.specs.Prelude.{◌+◌, ◌≤◌, ◌≡◌, length};
ghost use Rattle.laws.specs.Little.{number_at};

// The number in the two bytes from place i on.
pub fn u16_at(bytes: &[u8], i: usize) -> u16
    requires { i + 2 ≤ length bytes.now }
    ensures { result ≡ number_at 2 bytes.now i }
{
    u16::from_le_bytes([bytes[i], bytes[i + 1]])
}

// The number in the four bytes from place i on.
pub fn u32_at(bytes: &[u8], i: usize) -> u32
    requires { i + 4 ≤ length bytes.now }
    ensures { result ≡ number_at 4 bytes.now i }
{
    u32::from_le_bytes([bytes[i], bytes[i + 1], bytes[i + 2], bytes[i + 3]])
}
