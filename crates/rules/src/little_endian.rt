// Little-endian numbers at a place of bytes.
ghost use Rattle.std.specs.Prelude.{◌≡◌, ◌+◌, ◌≤◌, ◌<◌, length, get_or};
ghost use Rattle.rules.specs.LittleEndian.{u16_at, u32_at};

// The number that two bytes are.
pub fn u16_at(bytes: &[u8], at: usize) -> usize
    requires { at + 2 ≤ length bytes.now }
    ensures { result ≡ u16_at bytes.now at }
{
    bytes[at] as usize + 256 * (bytes[at + 1] as usize)
}

// The byte at a place, widened.
fn byte(bytes: &[u8], at: usize) -> u32
    requires { at < length bytes.now }
    ensures { (result ≡ get_or bytes.now at 0) × (result < 256) }
{
    bytes[at] as u32
}

// The number that four bytes are.
pub fn u32_at(bytes: &[u8], at: usize) -> u32
    requires { at + 4 ≤ length bytes.now }
    ensures { result ≡ u32_at bytes.now at }
{
    byte(bytes, at)
        + 256 * (byte(bytes, at + 1) + 256 * (byte(bytes, at + 2) + 256 * byte(bytes, at + 3)))
}
