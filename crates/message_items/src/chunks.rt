// Chunks: all of them passed over, and all of them as words.
ghost use Rattle.std.specs.Prelude.{◌≡◌, length};
ghost use Rattle.std.proofs.lemmas.List.Edits.{sets};
ghost use Rattle.wire.specs.Item.{run};
ghost use Rattle.message_items.specs.Items.{chunk_item, many_at, list_from, listed_of, chunks_at, words_of, AllRead};

use rules::refusal::Refusal;
use rules::sizes::CHUNKS;
use wire::parse::{Run, length_prefix, length_prefixed_bytes};

// Words of a chunk: where its first byte stands, and its length.
pub const CHUNK_WORDS: usize = 2;

// Passes over `count` chunks: where they stand, and the next place.
fn skip_chunks(bytes: &[u8], start: usize, count: usize) -> Result<(Run, usize), Refusal>
    ensures { result ≡ listed_of (list_from (run start count) (many_at (chunk_item bytes.now) count start)) }
{
    let mut next = start;
    for _ in 0..count {
        (_, next) = length_prefixed_bytes(bytes, next, bytes.len())?;
    }
    Ok((Run { start, count }, next))
}

// The chunks at a place: where they stand, and the next place.
pub fn parse_chunks(bytes: &[u8], at: usize) -> Result<(Run, usize), Refusal>
    ensures { result ≡ listed_of (chunks_at bytes.now at) }
{
    let (count, start) = length_prefix(bytes, at, bytes.len(), CHUNKS as u64)?;
    skip_chunks(bytes, start, count as usize)
}

// Puts the words of `count` chunks, which were passed over before, at the start of the list.
pub fn put_chunks(bytes: &[u8], start: usize, count: usize, out: &mut [u64])
    requires { AllRead (many_at (chunk_item bytes.now) count start) (length out.old) }
    ensures { out.new ≡ sets out.old 0 (words_of (many_at (chunk_item bytes.now) count start)) }
{
    let mut next = start;
    for k in 0..count {
        let chunk = length_prefixed_bytes(bytes, next, bytes.len());
        match chunk {
            Ok((place, end)) => {
                let at = CHUNK_WORDS * k;
                out[at] = place as u64;
                out[at + 1] = (end - place) as u64;
                next = end;
            }
            // Never: the walk before read every chunk here.
            Err(_) => {
                return;
            }
        }
    }
}
