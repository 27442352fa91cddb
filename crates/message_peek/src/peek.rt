// The version and the heads of a message.
ghost use Rattle.message_peek.specs.Peek.{PeekedInto};

use message::version::MessageVersion;
use message_read::opening::parse_opening;
use rules::put::copy_into;
use rules::refusal::Refusal;
use rules::sizes::HASH_SIZE;

// Reads a message up to the end of its heads, which are copied to the start of the buffer that is lent for them: its version, and how many heads stand
// there.
pub fn peek_heads(bytes: &[u8], out: &mut [u8]) -> Result<(MessageVersion, usize), Refusal>
    ensures { PeekedInto bytes.now out.old out.new result }
{
    let (version, heads, next) = parse_opening(bytes)?;
    let start = heads.start;
    let count = heads.count;
    let size = HASH_SIZE * count;
    if out.len() < size {
        return Err(Refusal::NoRoom(size));
    }
    copy_into(out, 0, &bytes[start..next]);
    Ok((version, count))
}
