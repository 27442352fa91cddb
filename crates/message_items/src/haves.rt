// Haves: one of them, all of them passed over, and all of them as words.
ghost use Rattle.std.specs.Prelude.{◌≡◌, ◌+◌, ◌≤◌, length};
ghost use Rattle.std.proofs.lemmas.List.Edits.{sets};
ghost use Rattle.wire.specs.Item.{run};
ghost use Rattle.bloom.specs.Have.{have_words};
ghost use Rattle.message_items.specs.ItemsIgnored.{CountedPut};
ghost use Rattle.message_items.specs.Items.{have_at, have_word_list, have_item, many_at, list_from, listed_of, haves_at, words_of, AllRead};

use bloom::have::{FilterNumbers, HAVE_WORDS};
use rules::refusal::Refusal;
use rules::sizes::HAVES;
use wire::parse::{Run, length_prefix, length_prefixed_bytes, length_prefixed_hashes};

// The have at a place: where its last-sync hashes stand, its filter, and the next place. Its filter string is there whole before the filter is looked for
// in it.
pub fn parse_have(bytes: &[u8], at: usize) -> Result<(Run, FilterNumbers, usize), Refusal>
    ensures { result ≡ have_at bytes.now at }
{
    let (sync, next) = length_prefixed_hashes(bytes, at, bytes.len())?;
    let (start, end) = length_prefixed_bytes(bytes, next, bytes.len())?;
    let (filter, _) = bloom::parse::parse(bytes, start, end)?;
    Ok((sync, filter, end))
}

// Passes over `count` haves: where they stand, and the next place.
fn skip_haves(bytes: &[u8], start: usize, count: usize) -> Result<(Run, usize), Refusal>
    ensures { result ≡ listed_of (list_from (run start count) (many_at (have_item bytes.now) count start)) }
{
    let mut next = start;
    for _ in 0..count {
        (_, _, next) = parse_have(bytes, next)?;
    }
    Ok((Run { start, count }, next))
}

// The haves at a place: where they stand, and the next place. Their count is tested before any of them.
pub fn parse_haves(bytes: &[u8], at: usize) -> Result<(Run, usize), Refusal>
    ensures { result ≡ listed_of (haves_at bytes.now at) }
{
    let (count, start) = length_prefix(bytes, at, bytes.len(), HAVES as u64)?;
    skip_haves(bytes, start, count as usize)
}

// Puts the words of a have at a place of the list.
fn put_have(out: &mut [u64], at: usize, sync: Run, filter: FilterNumbers)
    requires { at + have_words ≤ length out.old }
    ensures { out.new ≡ sets out.old at (have_word_list sync filter) }
{
    out[at] = sync.start as u64;
    out[at + 1] = sync.count as u64;
    out[at + 2] = filter.entries;
    out[at + 3] = filter.bits;
    out[at + 4] = filter.probes;
    out[at + 5] = filter.place as u64;
    out[at + 6] = filter.size as u64;
}

// Puts the words of `count` haves, which were passed over before, at the start of the list.
pub fn put_haves(bytes: &[u8], start: usize, count: usize, out: &mut [u64])
    requires { AllRead (many_at (have_item bytes.now) count start) (length out.old) }
    ensures { out.new ≡ sets out.old 0 (words_of (many_at (have_item bytes.now) count start)) }
{
    let mut next = start;
    for k in 0..count {
        let have = parse_have(bytes, next);
        match have {
            Ok((sync, filter, after)) => {
                put_have(out, HAVE_WORDS * k, sync, filter);
                next = after;
            }
            // Never: the message is the one that was walked before, and that walk read every have here.
            Err(_) => {
                return;
            }
        }
    }
}

// Puts the words of `count` haves, which were passed over before, and beside them how many bytes stand behind each filter's field. Returns the sum
// of these numbers.
pub fn put_counted(
    bytes: &[u8],
    start: usize,
    count: usize,
    out: &mut [u64],
    ignored: &mut [u64],
) -> usize
    requires { AllRead (many_at (have_item bytes.now) count start) (length out.old) × (count ≤ length ignored.old) }
    ensures { CountedPut bytes.now start count out.old out.new ignored.old ignored.new result }
{
    let mut next = start;
    let mut sum = 0;
    for k in 0..count {
        let have = parse_have(bytes, next);
        match have {
            Ok((sync, filter, after)) => {
                // A filter's string ends with its have.
                let behind = after - (filter.place + filter.size);
                put_have(out, HAVE_WORDS * k, sync, filter);
                ignored[k] = behind as u64;
                sum += behind;
                next = after;
            }
            // Never, as above.
            Err(_) => {
                return sum;
            }
        }
    }
    sum
}
