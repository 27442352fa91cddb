// What isn't in use of a house record.
ghost use Rattle.std.specs.Prelude.{◌≡◌, ◌+◌, ◌≤◌, length};
ghost use Rattle.rules.specs.Zeros.{bytes_at, zeros};

// Whether `count` bytes from a place on are 0. They are joined in one number and none is tested by itself, so that the compiler takes many at a time.
pub fn zero_bytes(bytes: &[u8], at: usize, count: usize) -> bool
    requires { at + count ≤ length bytes.now }
    ensures { result ≡ zeros (bytes_at bytes.now at count) }
{
    let mut any: u8 = 0;
    for byte in &bytes[at..at + count] {
        any |= *byte;
    }
    any == 0
}
