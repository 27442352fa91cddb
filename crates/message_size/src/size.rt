// How many bytes a message has, with every test but that of the room.
ghost use Rattle.std.specs.Prelude.{◌++◌, ◌≡◌, ◌+◌, ◌*◌, ◌≤◌, ◌<◌, length};
ghost use Rattle.bloom.specs.Filter.{filter_bytes, filter_of4};
ghost use Rattle.bloom.specs.Have.{have_count, have_in, haves_of, GoodHaves};
ghost use Rattle.message.specs.Write.{parts_of, hashes_of, chunks_from, test_haves, test_hashes, test_few, test_chunks, within_size, message_output};
ghost use Rattle.message.specs.Flags.{section_bytes};
ghost use Rattle.message.specs.Message.{have_bytes, counted};
ghost use Rattle.message.specs.declared.version.MessageVersion.{MessageVersion};
ghost use Rattle.rules.specs.Output.{Output, size_of};
ghost use Rattle.rules.specs.Sizes.{sizes};
ghost use Rattle.wire.specs.Item.{prefixed_bytes, hash_list_bytes};
ghost use Rattle.leb128.specs.Number.{shortest};

use bloom::have::{HAVE_WORDS, filter_in, passed_few, passed_good, sync_count};
use bloom::to_bytes::filter_size;
use leb128::leb128::unsigned_size;
use message::flags::MessageFlags;
use rules::passed::passed_hashes;
use rules::refusal::Refusal;
use rules::sizes::{CHUNKS, HASH_SIZE, MESSAGE_SIZE};

// The size of a list of `count` hashes, behind their number.
fn hashes_size(count: usize) -> usize
    requires { count ≤ sizes.hashes }
    ensures { result ≡ length (shortest count) + sizes.hash * count }
{
    unsigned_size(count as u64) + HASH_SIZE * count
}

// A filter, prefixed.
fn prefixed_filter_size(entries: u64, bits: u64, probes: u64, field: &[u8]) -> usize
    requires { length field.now ≤ sizes.field }
    ensures { result ≡ length (prefixed_bytes (filter_bytes (filter_of4 entries bits probes field.now))) }
{
    let size = filter_size(entries, bits, probes, field);
    unsigned_size(size as u64) + size
}

// The have of record i.
fn have_size(bytes: &[u8], haves: &[u64], i: usize) -> usize
    requires { GoodHaves bytes.now haves.now × (i < have_count haves.now) }
    ensures { result ≡ length (have_bytes (have_in bytes.now haves.now i)) }
{
    let hashes = hashes_size(sync_count(haves, i));
    let f = filter_in(haves, i);
    let start = f.place;
    let end = start + f.size;
    hashes + prefixed_filter_size(f.entries, f.bits, f.probes, &bytes[start..end])
}

// All haves, and their count.
pub fn haves_size(bytes: &[u8], haves: &[u64]) -> usize
    requires { GoodHaves bytes.now haves.now }
    ensures { result ≡ length (counted have_bytes (haves_of bytes.now haves.now)) }
{
    let total = haves.len() / HAVE_WORDS;
    let mut size = unsigned_size(total as u64);
    for i in 0..total {
        size += have_size(bytes, haves, i);
    }
    size
}

// The chunks, with their count. A length is compared with what is left and never added before: lengths can be anything.
pub fn cut_chunks(chunks: &[u8], lengths: &[u64]) -> Result<usize, Refusal>
    requires { length lengths.now ≤ sizes.chunks }
    ensures { result ≡ size_of (test_chunks chunks.now 0 lengths.now
        (within_size (counted prefixed_bytes (chunks_from chunks.now 0 lengths.now)))) }
{
    let mut end: usize = 0;
    let mut numbers: usize = unsigned_size(lengths.len() as u64);
    for &n in lengths {
        if ((chunks.len() - end) as u64) < n {
            return Err(Refusal::Cut(end));
        }
        end += n as usize;
        numbers += unsigned_size(n);
    }
    let size = numbers + end;
    if MESSAGE_SIZE < size {
        return Err(Refusal::PastSize(0));
    }
    Ok(size)
}

// 10 for the haves, then heads and need.
fn lists_size(heads: &[u8], need: &[u8], bytes: &[u8], haves: &[u64]) -> Result<usize, Refusal>
    ensures { result ≡ size_of (test_haves bytes.now haves.now
        (test_hashes heads.now (test_hashes need.now
        (Output.bytes (hash_list_bytes (hashes_of heads.now) ++ hash_list_bytes (hashes_of need.now)))))) }
{
    if !passed_good(bytes, haves) {
        return Err(Refusal::BadNumbers);
    }
    let heads_count = passed_hashes(heads)?;
    let need_count = passed_hashes(need)?;
    Ok(hashes_size(heads_count) + hashes_size(need_count))
}

// 4 for the haves and the number of chunks, then the chunks.
fn chunks_size(haves: &[u64], chunks: &[u8], lengths: &[u64]) -> Result<usize, Refusal>
    ensures { result ≡ size_of (test_few haves.now lengths.now (test_chunks chunks.now 0 lengths.now
        (within_size (counted prefixed_bytes (chunks_from chunks.now 0 lengths.now))))) }
{
    if !passed_few(haves) {
        return Err(Refusal::PastSize(0));
    }
    if CHUNKS < lengths.len() {
        return Err(Refusal::PastSize(0));
    }
    cut_chunks(chunks, lengths)
}

// The flags section.
fn section_size(flags: Option<MessageFlags>) -> usize
    ensures { result ≡ length (section_bytes flags) }
{
    match flags {
        None => 0,
        Some(_) => 3,
    }
}

// A whole message, of whichever version.
pub fn message_size(
    heads: &[u8],
    need: &[u8],
    bytes: &[u8],
    haves: &[u64],
    chunks: &[u8],
    lengths: &[u64],
    flags: Option<MessageFlags>,
) -> Result<usize, Refusal>
    ensures { (v : MessageVersion) → result ≡ size_of (message_output (parts_of v heads.now need.now bytes.now
        haves.now chunks.now lengths.now flags)) }
{
    let first = lists_size(heads, need, bytes, haves)?;
    let last = chunks_size(haves, chunks, lengths)?;
    let whole = 1 + first + haves_size(bytes, haves) + last + section_size(flags);
    if MESSAGE_SIZE < whole {
        return Err(Refusal::PastSize(0));
    }
    Ok(whole)
}
