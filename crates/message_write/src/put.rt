// The parts of a message put into a buffer that has room for them, one after the other. Each returns the place after what it put.
ghost use Rattle.std.specs.Prelude.{◌≡◌, ◌+◌, ◌*◌, ◌≤◌, ◌<◌, length};
ghost use Rattle.std.proofs.lemmas.List.Edits.{sets};
ghost use Rattle.bloom.specs.Filter.{filter_bytes, filter_of4};
ghost use Rattle.bloom.specs.Have.{have_count, have_in, haves_of, GoodHaves};
ghost use Rattle.message.specs.Write.{parts_of, message_of, chunks_from, message_output};
ghost use Rattle.message.specs.Flags.{section_bytes};
ghost use Rattle.message.specs.Message.{have_bytes, counted, total, message_bytes};
ghost use Rattle.rules.specs.Hash.{hashes_at};
ghost use Rattle.rules.specs.Output.{Output};
ghost use Rattle.rules.specs.Sizes.{sizes};
ghost use Rattle.wire.specs.Item.{prefixed_bytes, hash_list_bytes};
ghost use Rattle.leb128.specs.Number.{Put};

use bloom::have::{HAVE_WORDS, filter_in, sync_count, sync_place};
use bloom::to_bytes::{filter_size, put_filter};
use leb128::leb128::put_unsigned;
use message::flags::{BITFIELD_MARKER, LEGACY_V2_BYTE, MessageFlags};
use message::version::MessageVersion;
use rules::put::copy_into;
use rules::sizes::HASH_SIZE;

// Puts a list of `count` hashes, which stand in the bytes from a place on.
fn put_hashes(out: &mut [u8], at: usize, bytes: &[u8], place: usize, count: usize) -> usize
    requires { (place + sizes.hash * count ≤ length bytes.now) × (at + length (hash_list_bytes (hashes_at bytes.now place count)) ≤ length out.old) }
    ensures { Put out.old out.new at (hash_list_bytes (hashes_at bytes.now place count)) result }
{
    let end = place + HASH_SIZE * count;
    let at_hashes = put_unsigned(out, at, count as u64);
    copy_into(out, at_hashes, &bytes[place..end]);
    at_hashes + HASH_SIZE * count
}

// A filter, prefixed.
fn put_prefixed_filter(
    out: &mut [u8],
    at: usize,
    entries: u64,
    bits: u64,
    probes: u64,
    field: &[u8],
) -> usize
    requires { at + length (prefixed_bytes (filter_bytes (filter_of4 entries bits probes field.now))) ≤ length out.old }
    ensures { Put out.old out.new at (prefixed_bytes (filter_bytes (filter_of4 entries bits probes field.now))) result }
{
    let size = filter_size(entries, bits, probes, field);
    let at_filter = put_unsigned(out, at, size as u64);
    put_filter(out, at_filter, entries, bits, probes, field)
}

// The have of record i: its last-sync hashes and its filter.
fn put_have(out: &mut [u8], at: usize, bytes: &[u8], haves: &[u64], i: usize) -> usize
    requires { (GoodHaves bytes.now haves.now × (i < have_count haves.now))
        × (at + length (have_bytes (have_in bytes.now haves.now i)) ≤ length out.old) }
    ensures { Put out.old out.new at (have_bytes (have_in bytes.now haves.now i)) result }
{
    let place = sync_place(haves, i);
    let count = sync_count(haves, i);
    let f = filter_in(haves, i);
    let start = f.place;
    let end = start + f.size;
    let at_filter = put_hashes(out, at, bytes, place, count);
    put_prefixed_filter(
        out,
        at_filter,
        f.entries,
        f.bits,
        f.probes,
        &bytes[start..end],
    )
}

// All haves after their count.
fn put_haves(out: &mut [u8], at: usize, bytes: &[u8], haves: &[u64]) -> usize
    requires { GoodHaves bytes.now haves.now × (at + length (counted have_bytes (haves_of bytes.now haves.now)) ≤ length out.old) }
    ensures { Put out.old out.new at (counted have_bytes (haves_of bytes.now haves.now)) result }
{
    let total = haves.len() / HAVE_WORDS;
    let mut place = put_unsigned(out, at, total as u64);
    for i in 0..total {
        place = put_have(out, place, bytes, haves, i);
    }
    place
}

// A chunk, prefixed.
fn put_chunk(out: &mut [u8], at: usize, bytes: &[u8]) -> usize
    requires { at + length (prefixed_bytes bytes.now) ≤ length out.old }
    ensures { Put out.old out.new at (prefixed_bytes bytes.now) result }
{
    let at_bytes = put_unsigned(out, at, bytes.len() as u64);
    copy_into(out, at_bytes, bytes);
    at_bytes + bytes.len()
}

// All chunks after their count.
fn put_chunks(out: &mut [u8], at: usize, chunks: &[u8], lengths: &[u64]) -> usize
    requires { (total lengths.now ≤ length chunks.now)
        × (at + length (counted prefixed_bytes (chunks_from chunks.now 0 lengths.now)) ≤ length out.old) }
    ensures { Put out.old out.new at (counted prefixed_bytes (chunks_from chunks.now 0 lengths.now)) result }
{
    let mut place = put_unsigned(out, at, lengths.len() as u64);
    let mut start: usize = 0;
    for &n in lengths {
        let end = start + n as usize;
        place = put_chunk(out, place, &chunks[start..end]);
        start = end;
    }
    place
}

// The flags section.
fn put_section(out: &mut [u8], at: usize, flags: Option<MessageFlags>) -> usize
    requires { at + length (section_bytes flags) ≤ length out.old }
    ensures { Put out.old out.new at (section_bytes flags) result }
{
    match flags {
        None => at,
        Some(f) => {
            out[at] = LEGACY_V2_BYTE;
            out[at + 1] = LEGACY_V2_BYTE;
            out[at + 2] = BITFIELD_MARKER + f.0 % BITFIELD_MARKER;
            at + 3
        }
    }
}

// A whole message at the start of the buffer.
pub fn put_message(
    out: &mut [u8],
    version: MessageVersion,
    heads: &[u8],
    need: &[u8],
    bytes: &[u8],
    haves: &[u64],
    chunks: &[u8],
    lengths: &[u64],
    flags: Option<MessageFlags>,
)
    requires { (message_output (parts_of version heads.now need.now bytes.now haves.now chunks.now lengths.now flags)
        ≡ Output.bytes (message_bytes (message_of (parts_of version heads.now need.now bytes.now haves.now chunks.now lengths.now flags))))
        × (length (message_bytes (message_of (parts_of version heads.now need.now bytes.now haves.now chunks.now lengths.now flags)))
        ≤ length out.old) }
    ensures { out.new ≡ sets out.old 0 (message_bytes (message_of (parts_of version heads.now need.now
        bytes.now haves.now chunks.now lengths.now flags))) }
{
    out[0] = version.encode();
    let at_need = put_hashes(out, 1, heads, 0, heads.len() / HASH_SIZE);
    let at_haves = put_hashes(out, at_need, need, 0, need.len() / HASH_SIZE);
    let at_chunks = put_haves(out, at_haves, bytes, haves);
    let at_flags = put_chunks(out, at_chunks, chunks, lengths);
    put_section(out, at_flags, flags);
}
