// Counts, prefixed strings and hash lists, read (the parsers of src/storage/parse.rs that sync uses).
ghost use Rattle.std.specs.Prelude.{◌≡◌};
ghost use Rattle.wire.specs.Item.{left_at, count_at, prefixed_at, hash_list_at};

use leb128::leb128::{leb128_u64, within};
use rules::refusal::Refusal;
use rules::sizes::{HASH_SIZE, HASHES};

// Where items stand: the place of the first, and how many there are.
#[derive(Clone, Copy)]
pub struct Run {
    pub start: usize,
    pub count: usize,
}

// How many bytes stand from a place up to `end`.
pub fn left(bytes: &[u8], at: usize, end: usize) -> usize
    ensures { result ≡ left_at bytes.now at end }
{
    let stop = within(bytes, end);
    if at < stop { stop - at } else { 0 }
}

// The count at a place, which is at most `limit`, and the place after it.
pub fn length_prefix(
    bytes: &[u8],
    at: usize,
    end: usize,
    limit: u64,
) -> Result<(u64, usize), Refusal>
    ensures { result ≡ count_at limit bytes.now at end }
{
    let (count, next) = leb128_u64(bytes, at, end)?;
    if limit < count {
        return Err(Refusal::PastSize(at));
    }
    Ok((count, next))
}

// The prefixed string at a place: its bytes stand from the first place that is answered up to the second, which is the next place.
pub fn length_prefixed_bytes(bytes: &[u8], at: usize, end: usize) -> Result<(usize, usize), Refusal>
    ensures { result ≡ prefixed_at bytes.now at end }
{
    let (size, start) = leb128_u64(bytes, at, end)?;
    if (left(bytes, start, end) as u64) < size {
        return Err(Refusal::Cut(at));
    }
    Ok((start, start + size as usize))
}

// The hash list at a place: where its hashes stand, and the next place. They are not walked: how many stand there whole follows from the bytes that are
// left.
pub fn length_prefixed_hashes(bytes: &[u8], at: usize, end: usize) -> Result<(Run, usize), Refusal>
    ensures { result ≡ hash_list_at bytes.now at end }
{
    let (wanted, start) = length_prefix(bytes, at, end, HASHES as u64)?;
    let whole = left(bytes, start, end) / HASH_SIZE;
    if (whole as u64) < wanted {
        let cut = start + HASH_SIZE * whole;
        return Err(Refusal::Cut(cut));
    }
    let count = wanted as usize;
    let next = start + HASH_SIZE * count;
    Ok((Run { start, count }, next))
}
