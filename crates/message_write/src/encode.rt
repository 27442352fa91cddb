// A message written.
ghost use Rattle.message.specs.Write.{parts_of, message_output};
ghost use Rattle.rules.specs.Output.{Written};

use crate::put::put_message;
use message::flags::MessageFlags;
use message::version::MessageVersion;
use message_size::size::message_size;
use rules::refusal::Refusal;

// Writes a message from its parts; order and repeats are kept.
pub fn encode(
    out: &mut [u8],
    version: MessageVersion,
    heads: &[u8],
    need: &[u8],
    bytes: &[u8],
    haves: &[u64],
    chunks: &[u8],
    lengths: &[u64],
    flags: Option<MessageFlags>,
) -> Result<usize, Refusal>
    ensures { Written (message_output (parts_of version heads.now need.now bytes.now haves.now
        chunks.now lengths.now flags)) out.old out.new result }
{
    let size = message_size(heads, need, bytes, haves, chunks, lengths, flags)?;
    if out.len() < size {
        return Err(Refusal::NoRoom(size));
    }
    put_message(
        out, version, heads, need, bytes, haves, chunks, lengths, flags,
    );
    Ok(size)
}
