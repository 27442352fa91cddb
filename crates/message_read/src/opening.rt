// The first stage of a message: its size, its version and its heads.
ghost use Rattle.std.specs.Prelude.{◌≡◌};
ghost use Rattle.message_read.specs.MessageRead.{opening_at, heads_at};

use message::version::{MESSAGE_TYPE_SYNC, MESSAGE_TYPE_SYNC_V2, MessageVersion};
use rules::refusal::Refusal;
use rules::sizes::MESSAGE_SIZE;
use wire::parse::{Run, length_prefixed_hashes};

// Where the heads stand behind the first byte, beside the version that it said, and the next place.
fn parse_heads(
    bytes: &[u8],
    version: MessageVersion,
) -> Result<(MessageVersion, Run, usize), Refusal>
    ensures { result ≡ heads_at bytes.now version }
{
    let (heads, next) = length_prefixed_hashes(bytes, 1, bytes.len())?;
    Ok((version, heads, next))
}

// The version, where the heads stand, and the next place.
pub fn parse_opening(bytes: &[u8]) -> Result<(MessageVersion, Run, usize), Refusal>
    ensures { result ≡ opening_at bytes.now }
{
    if MESSAGE_SIZE < bytes.len() {
        return Err(Refusal::PastSize(0));
    }
    if bytes.len() == 0 {
        return Err(Refusal::Cut(0));
    }
    let message_type = bytes[0];
    if message_type == MESSAGE_TYPE_SYNC {
        return parse_heads(bytes, MessageVersion::V1);
    }
    if message_type == MESSAGE_TYPE_SYNC_V2 {
        return parse_heads(bytes, MessageVersion::V2);
    }
    Err(Refusal::WrongType(message_type))
}
