// A message read into lent lists.
ghost use Rattle.std.specs.Prelude.{◌≡◌};
ghost use Rattle.message_read.specs.MessageIgnored.{behind_of, DecodedInto};

use crate::parse::{Places, parse};
use bloom::have::HAVE_WORDS;
use message::flags::MessageFlags;
use message_items::chunks::{CHUNK_WORDS, put_chunks};
use message_items::haves::put_counted;
use rules::refusal::Refusal;
use rules::sizes::HAVES;
use wire::parse::left;

// The bytes after a flags section, which ends at the next place; without one there are none.
fn behind_section(bytes: &[u8], section: Option<MessageFlags>, next: usize) -> usize
    ensures { result ≡ behind_of bytes.now section next }
{
    match section {
        None => 0,
        Some(_) => left(bytes, next, bytes.len()),
    }
}

// Reads a message: the places of its parts, how many bytes are ignored behind the fields of its filters, and how many stand behind its flags section. The
// words of its haves and of its chunks are put at the start of the lists that are lent for them, and for each have the number of bytes that are ignored
// behind its filter's field.
pub fn decode(
    bytes: &[u8],
    haves: &mut [u64],
    chunks: &mut [u64],
    ignored: &mut [u64; HAVES],
) -> Result<(Places, usize, usize), Refusal>
    ensures { DecodedInto bytes.now haves.old haves.new chunks.old chunks.new
        ignored.old ignored.new result }
{
    let places = parse(bytes)?;
    let have_run = places.haves;
    let chunk_run = places.chunks;
    let have_words = HAVE_WORDS * have_run.count;
    if haves.len() < have_words {
        return Err(Refusal::NoRoom(have_words));
    }
    let chunk_words = CHUNK_WORDS * chunk_run.count;
    if chunks.len() < chunk_words {
        return Err(Refusal::NoRoom(chunk_words));
    }
    let sum = put_counted(bytes, have_run.start, have_run.count, haves, ignored);
    put_chunks(bytes, chunk_run.start, chunk_run.count, chunks);
    let flags = places.flags;
    let behind = behind_section(bytes, flags, places.next);
    Ok((places, sum, behind))
}
