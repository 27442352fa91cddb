// Eight bytes as one number, the first byte highest: numbers of equally many bytes stand to each other as the bytes do.
ghost use Rattle.std.specs.Prelude.{◌≡◌, ◌+◌, ◌≤◌, ◌<◌, length, get_or};
ghost use Rattle.hash_order.specs.Internal.Word.{word_size, half_size, half_limit, half_at, word_at};

// Bytes of a word, by which hashes are compared.
pub const WORD_SIZE: usize = 8;

const HALF_SIZE: usize = 4;

const HALF_LIMIT: u64 = 4_294_967_296;

// The byte at a place, widened.
fn byte(bytes: &[u8], at: usize) -> u64
    requires { at < length bytes.now }
    ensures { (result ≡ get_or bytes.now at 0) × (result < 256) }
{
    bytes[at] as u64
}

// The number that four bytes are.
fn half_at(bytes: &[u8], at: usize) -> u64
    requires { at + half_size ≤ length bytes.now }
    ensures { (result ≡ half_at bytes.now at) × (result < half_limit) }
{
    byte(bytes, at + 3)
        + 256 * (byte(bytes, at + 2) + 256 * (byte(bytes, at + 1) + 256 * byte(bytes, at)))
}

// The number that eight bytes are. No byte is tested by itself, so that the compiler reads all of them at once.
pub fn word_at(bytes: &[u8], at: usize) -> u64
    requires { at + word_size ≤ length bytes.now }
    ensures { result ≡ word_at bytes.now at }
{
    half_at(bytes, at) * HALF_LIMIT + half_at(bytes, at + HALF_SIZE)
}
