// Whether filters contain a hash (`contains_hash`, `get_bit`).
ghost use Rattle.std.specs.Prelude.{◌≡◌, ◌+◌, ◌*◌, ◌≤◌, ◌<◌, length};
ghost use Rattle.bloom.specs.Have.{filters_of, GoodFilters};
ghost use Rattle.bloom_probe.specs.Contains.{contained_in, clear_at, any_contains};
ghost use Rattle.rules.specs.Hash.{hash_at};
ghost use Rattle.rules.specs.Sizes.{sizes};

use crate::probes::{Probe, count};
use bloom::have::{HAVE_WORDS, filter_in, passed_few, passed_good};
use rules::little_endian::u32_at;
use rules::refusal::Refusal;
use rules::sizes::HASH_SIZE;

// Whether a bit of the field is clear.
fn clear_bit(field: &[u8], probe: usize) -> bool
    requires { probe < 8 * length field.now }
    ensures { result ≡ clear_at field.now probe }
{
    (field[probe / 8] >> (probe % 8)) % 2 == 0
}

// Whether some have's filter contains the hash at a place. One clear bit ends that filter, and the search goes on with the next; a run of
// probes without one leaves it as contained. Half of the hashes that a filter misses end at their first probe, so what only later ones need
// is reduced behind it.
pub fn contains_hash(bytes: &[u8], haves: &[u64], hashes: &[u8], at: usize) -> bool
    requires { GoodFilters bytes.now haves.now × (at + sizes.hash ≤ length hashes.now) }
    ensures { result ≡ any_contains (filters_of bytes.now haves.now) (hash_at hashes.now at) }
{
    let first = u32_at(hashes, at);
    let second = u32_at(hashes, at + 4);
    let third = u32_at(hashes, at + 8);
    let total = haves.len() / HAVE_WORDS;
    'next_filter: for i in 0..total {
        let f = filter_in(haves, i);
        if f.entries == 0 {
            continue 'next_filter;
        }
        let place = f.place;
        let size = f.size;
        let field = &bytes[place..place + size];
        let m = 8 * size as u32;
        let x = first % m;
        if clear_bit(field, x as usize) {
            continue 'next_filter;
        }
        let y = second % m;
        let z = third % m;
        let mut probe = Probe { x, y };
        let rounds = count(f.probes);
        for _ in 1..rounds {
            probe = probe.next(z, m);
            if clear_bit(field, probe.x as usize) {
                continue 'next_filter;
            }
        }
        return true;
    }
    false
}

// Whether some filter of the haves contains the hash that is lent.
pub fn filters_contain(bytes: &[u8], haves: &[u64], hash: &[u8]) -> Result<bool, Refusal>
    ensures { result ≡ contained_in bytes.now haves.now hash.now }
{
    if !passed_good(bytes, haves) {
        return Err(Refusal::BadNumbers);
    }
    if !passed_few(haves) {
        return Err(Refusal::PastSize(0));
    }
    if HASH_SIZE < hash.len() {
        return Err(Refusal::PastSize(0));
    }
    if hash.len() < HASH_SIZE {
        return Err(Refusal::Cut(0));
    }
    if contains_hash(bytes, haves, hash, 0) {
        return Ok(true);
    }
    Ok(false)
}
