// An answer as words.
ghost use Rattle.std.specs.Prelude.{◌≡◌};
ghost use Rattle.bloom_calls.specs.BloomWords.{filter_words, contained_words};

use bloom::have::FilterNumbers;
use call_words::answer::refusal_words;
use rules::refusal::Refusal;

pub fn filter_words(f: Result<(FilterNumbers, usize, usize), Refusal>) -> [u64; 8]
    ensures { result ≡ filter_words f }
{
    match f {
        Ok((filter, next, ignored)) => [
            0,
            filter.entries,
            filter.bits,
            filter.probes,
            filter.place as u64,
            filter.size as u64,
            next as u64,
            ignored as u64,
        ],
        Err(r) => [r.number(), r.value(), 0, 0, 0, 0, 0, 0],
    }
}

pub fn contained_words(k: Result<bool, Refusal>) -> [u64; 4]
    ensures { result ≡ contained_words k }
{
    match k {
        Ok(true) => [0, 1, 0, 0],
        Ok(false) => [0, 0, 0, 0],
        Err(r) => refusal_words(r),
    }
}
