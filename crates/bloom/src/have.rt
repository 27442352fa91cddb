// A have as numbers: the words of its record in a lent list. Places count from the first byte of the buffer that is lent beside it.
ghost use Rattle.std.specs.Prelude.{◌≡◌, ◌+◌, ◌<◌, min, leb};
ghost use Rattle.bloom.specs.Have.{have_count, sync_place, sync_count, numbers_in, filter_good, have_good, passed_good, passed_few};
ghost use Rattle.rules.specs.Sizes.{sizes};

use crate::rule::filter_rules;
use rules::sizes::{HASH_SIZE, HASHES, HAVES};

// A record: place and count of the last-sync hashes, then the filter's entries, bits per entry, probes, place and length of its field.
pub const HAVE_WORDS: usize = 7;

// A filter as numbers: its entries, bits per entry and probes, and where its field stands and how long it is.
#[derive(Clone, Copy)]
pub struct FilterNumbers {
    pub entries: u64,
    pub bits: u64,
    pub probes: u64,
    pub place: usize,
    pub size: usize,
}

// Where the last-sync hashes of record i stand.
pub fn sync_place(haves: &[u64], i: usize) -> usize
    requires { i < have_count haves.now }
    ensures { result ≡ sync_place haves.now i }
{
    haves[i * HAVE_WORDS] as usize
}

// How many last-sync hashes record i has.
pub fn sync_count(haves: &[u64], i: usize) -> usize
    requires { i < have_count haves.now }
    ensures { result ≡ sync_count haves.now i }
{
    haves[i * HAVE_WORDS + 1] as usize
}

// The filter of record i.
pub fn filter_in(haves: &[u64], i: usize) -> FilterNumbers
    requires { i < have_count haves.now }
    ensures { result ≡ numbers_in haves.now i }
{
    let at = i * HAVE_WORDS;
    FilterNumbers {
        entries: haves[at + 2],
        bits: haves[at + 3],
        probes: haves[at + 4],
        place: haves[at + 5] as usize,
        size: haves[at + 6] as usize,
    }
}

// Whether a part stands inside a buffer; place and size are never added before they are known to be small.
pub fn inside(place: usize, size: usize, whole: usize) -> bool
    ensures { result ≡ leb (place + size) whole }
{
    if whole < size {
        return false;
    }
    place <= whole - size
}

// Whether the filter of record i is a filter over the lent bytes.
pub fn filter_good(bytes: &[u8], haves: &[u64], i: usize) -> bool
    requires { i < have_count haves.now }
    ensures { result ≡ filter_good bytes.now (numbers_in haves.now i) }
{
    let f = filter_in(haves, i);
    if !filter_rules(f.entries, f.bits, f.probes, f.size as u64) {
        return false;
    }
    inside(f.place, f.size, bytes.len())
}

// Whether record i is a have over the lent bytes: its last-sync hashes stand there, and its filter is good.
pub fn have_good(bytes: &[u8], haves: &[u64], i: usize) -> bool
    requires { i < have_count haves.now }
    ensures { result ≡ have_good bytes.now haves.now i }
{
    let count = sync_count(haves, i);
    if bytes.len() / HASH_SIZE < count {
        return false;
    }
    if !inside(sync_place(haves, i), HASH_SIZE * count, bytes.len()) {
        return false;
    }
    filter_good(bytes, haves, i)
}

fn at_most(count: usize) -> usize
    ensures { result ≡ min count sizes.haves }
{
    if count < HAVES { count } else { HAVES }
}

// Whether a list that is passed is whole records, each a have; of more than a list may have, the first are looked at.
pub fn passed_good(bytes: &[u8], haves: &[u64]) -> bool
    ensures { result ≡ passed_good bytes.now haves.now }
{
    if haves.len() % HAVE_WORDS != 0 {
        return false;
    }
    let total = at_most(haves.len() / HAVE_WORDS);
    for i in 0..total {
        if !have_good(bytes, haves, i) {
            return false;
        }
    }
    true
}

// Whether a list that is passed has no more haves than a list may have, and each no more last-sync hashes.
pub fn passed_few(haves: &[u64]) -> bool
    ensures { result ≡ passed_few haves.now }
{
    let total = haves.len() / HAVE_WORDS;
    if HAVES < total {
        return false;
    }
    for i in 0..total {
        if HASHES < sync_count(haves, i) {
            return false;
        }
    }
    true
}
