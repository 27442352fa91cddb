// The words of a stored answer.
ghost use Rattle.std.specs.Prelude.{◌≡◌, ◌+◌, ◌≤◌, length};
ghost use Rattle.sample_replay.specs.SampleWords.{u64_at, words_at};

use rules::little_endian::u32_at;

fn u64_at(bytes: &[u8], at: usize) -> u64
    requires { at + 8 ≤ length bytes.now }
    ensures { result ≡ u64_at bytes.now at }
{
    u64::from(u32_at(bytes, at)) + 4_294_967_296 * u64::from(u32_at(bytes, at + 4))
}

// The four words of an answer.
pub fn words_at(bytes: &[u8], at: usize) -> [u64; 4]
    requires { at + 32 ≤ length bytes.now }
    ensures { result ≡ words_at bytes.now at }
{
    [
        u64_at(bytes, at),
        u64_at(bytes, at + 8),
        u64_at(bytes, at + 16),
        u64_at(bytes, at + 24),
    ]
}
