// 01, Sizes, as 02, M-106 has them: every limit has its name and number here. Limits that are equal today keep names of their own.
ghost use Rattle.std.specs.Prelude.{◌≡◌};
ghost use Rattle.rules.specs.Sizes.{sizes, limits_of};

// Bytes of a hash.
pub const HASH_SIZE: usize = 32;
// Bytes of a message.
pub const MESSAGE_SIZE: usize = 4_194_304;
// Rows of a change table.
pub const ROWS: usize = 8_192;
// Rows of a waiting table.
pub const WAITING_ROWS: usize = 1_024;
// Dependencies of a change.
pub const DEPENDENCIES: usize = 111;
// Hashes of a list.
pub const HASHES: usize = 8_192;
// Hashes that a session remembers as sent.
pub const SENT_HASHES: usize = 8_192;
// Haves of a message or a session.
pub const HAVES: usize = 16;
// Chunks of a message.
pub const CHUNKS: usize = 16_384;
// Bytes of a filter's bit field.
pub const FIELD_SIZE: usize = 32_768;
// Probes of a filter that has entries.
pub const PROBES: usize = 64;
// Hashes to send at once.
pub const HASHES_TO_SEND: usize = 16_384;

// Every limit, in the order above, for a host that sizes its buffers by them.
pub fn limits() -> [u64; 12]
    ensures { result ≡ limits_of sizes }
{
    [
        HASH_SIZE as u64,
        MESSAGE_SIZE as u64,
        ROWS as u64,
        WAITING_ROWS as u64,
        DEPENDENCIES as u64,
        HASHES as u64,
        SENT_HASHES as u64,
        HAVES as u64,
        CHUNKS as u64,
        FIELD_SIZE as u64,
        PROBES as u64,
        HASHES_TO_SEND as u64,
    ]
}
