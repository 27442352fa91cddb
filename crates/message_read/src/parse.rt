// The places of a message's parts, stage by stage.
ghost use Rattle.std.specs.Prelude.{◌≡◌};
ghost use Rattle.message_read.specs.MessageRead.{section_at, lists_at, need_at, message_at, decoded_of};

use crate::opening::parse_opening;
use message::flags::MessageFlags;
use message::version::MessageVersion;
use message_items::chunks::parse_chunks;
use message_items::haves::parse_haves;
use rules::refusal::Refusal;
use wire::parse::{Run, length_prefixed_bytes, length_prefixed_hashes};

// Where the parts of a message stand, its flags, and the place after all that was read.
#[derive(Clone, Copy)]
pub struct Places {
    pub version: MessageVersion,
    pub heads: Run,
    pub need: Run,
    pub haves: Run,
    pub chunks: Run,
    pub flags: Option<MessageFlags>,
    pub next: usize,
}

// The flags section at a place, if bytes remain there, and the next place.
pub fn parse_section(bytes: &[u8], at: usize) -> Result<(Option<MessageFlags>, usize), Refusal>
    ensures { result ≡ section_at bytes.now at }
{
    if bytes.len() <= at {
        return Ok((None, at));
    }
    let (start, end) = length_prefixed_bytes(bytes, at, bytes.len())?;
    let flags = MessageFlags::parse_bytes(bytes, start, end);
    Ok((Some(flags), end))
}

// The haves, the chunks and the flags, which stand after the need.
fn parse_lists(
    bytes: &[u8],
    version: MessageVersion,
    heads: Run,
    need: Run,
    at: usize,
) -> Result<Places, Refusal>
    ensures { result ≡ decoded_of (lists_at bytes.now version heads need at) }
{
    let (haves, at_chunks) = parse_haves(bytes, at)?;
    let (chunks, at_section) = parse_chunks(bytes, at_chunks)?;
    let (flags, next) = parse_section(bytes, at_section)?;
    Ok(Places {
        version,
        heads,
        need,
        haves,
        chunks,
        flags,
        next,
    })
}

// The need, which stands after the heads, and what follows it.
fn parse_need(
    bytes: &[u8],
    version: MessageVersion,
    heads: Run,
    at: usize,
) -> Result<Places, Refusal>
    ensures { result ≡ decoded_of (need_at bytes.now version heads at) }
{
    let (need, next) = length_prefixed_hashes(bytes, at, bytes.len())?;
    parse_lists(bytes, version, heads, need, next)
}

// The places of a message's parts.
pub fn parse(bytes: &[u8]) -> Result<Places, Refusal>
    ensures { result ≡ decoded_of (message_at bytes.now) }
{
    let (version, heads, next) = parse_opening(bytes)?;
    parse_need(bytes, version, heads, next)
}
