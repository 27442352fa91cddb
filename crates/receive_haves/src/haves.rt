// The haves of a message, laid out as a session keeps them.
ghost use Rattle.std.specs.Prelude.{◌≡◌, ◌+◌, ◌*◌, ◌≤◌, ◌<◌, length};
ghost use Rattle.std.proofs.lemmas.List.Edits.{sets};
ghost use Rattle.bloom.specs.Have.{have_words, have_count, sync_count, have_in, haves_of};
ghost use Rattle.leb128.specs.Number.{Put};
ghost use Rattle.rules.specs.Sizes.{sizes};
ghost use Rattle.session.specs.Laid.{laid_bytes};
ghost use Rattle.receive_haves.specs.Internal.HavesLaid.{Layable, LaidPut, most_laid, record_from, laid_have};

use bloom::have::{HAVE_WORDS, filter_in, sync_count, sync_place};
use rules::put::copy_into;
use rules::sizes::HASH_SIZE;

// How many bytes the haves of these records take.
pub fn laid_size(message: &[u8], words: &[u64]) -> usize
    requires { Layable message.now words.now }
    ensures { result ≡ length (laid_bytes (haves_of message.now words.now)) }
{
    let total = words.len() / HAVE_WORDS;
    let mut size = 0;
    for i in 0..total {
        let filter = filter_in(words, i);
        size += HASH_SIZE * sync_count(words, i) + filter.size;
    }
    size
}

// Puts the words of record i, whose bytes are laid out from a place on.
fn put_record(words: &[u64], i: usize, at: usize, records: &mut [u64])
    requires { (i < have_count words.now) × (at + sizes.hash * sync_count words.now i ≤ most_laid)
        × (have_words * i + have_words ≤ length records.old) }
    ensures { records.new ≡ sets records.old (have_words * i) (record_from at words.now i) }
{
    let count = sync_count(words, i);
    let filter = filter_in(words, i);
    let k = HAVE_WORDS * i;
    records[k] = at as u64;
    records[k + 1] = count as u64;
    records[k + 2] = filter.entries;
    records[k + 3] = filter.bits;
    records[k + 4] = filter.probes;
    records[k + 5] = (at + HASH_SIZE * count) as u64;
    records[k + 6] = filter.size as u64;
}

// Puts the bytes of record i at a place, its last-sync hashes and then its field, and returns the place after them.
fn lay_have(message: &[u8], words: &[u64], i: usize, at: usize, bytes: &mut [u8]) -> usize
    requires { Layable message.now words.now × (i < have_count words.now)
        × (at + length (laid_have (have_in message.now words.now i)) ≤ length bytes.old) }
    ensures { Put bytes.old bytes.new at (laid_have (have_in message.now words.now i)) result }
{
    let from = sync_place(words, i);
    let size = HASH_SIZE * sync_count(words, i);
    let filter = filter_in(words, i);
    let start = filter.place;
    let long = filter.size;
    let field = at + size;
    copy_into(bytes, at, &message[from..from + size]);
    copy_into(bytes, field, &message[start..start + long]);
    field + long
}

// Lays out all of them: records at the start of one buffer, bytes at the start of another.
pub fn lay_haves(message: &[u8], words: &[u64], records: &mut [u64], bytes: &mut [u8])
    requires { Layable message.now words.now × (have_words * have_count words.now ≤ length records.old)
        × (length (laid_bytes (haves_of message.now words.now)) ≤ length bytes.old) }
    ensures { LaidPut (haves_of message.now words.now) records.old bytes.old records.new
        bytes.new }
{
    let total = words.len() / HAVE_WORDS;
    let mut at = 0;
    for i in 0..total {
        put_record(words, i, at, records);
        at = lay_have(message, words, i, at, bytes);
    }
}
