// Answers as words, and totals behind one.
ghost use Rattle.std.specs.Prelude.{◌≡◌};
ghost use Rattle.counts_calls.specs.CountWords.{counted_words, added_words, totals_of, totals_after};

use call_words::answer::refusal_words;
use counts::totals::Counts;
use rules::refusal::Refusal;

pub fn counted_words(counted: Result<Counts, Refusal>) -> [u64; 8]
    ensures { result ≡ counted_words counted }
{
    match counted {
        Ok(counts) => [
            0,
            counts.entries,
            counts.field_bits,
            counts.set_bits,
            counts.tested,
            counts.contained,
            0,
            0,
        ],
        Err(r) => [r.number(), r.value(), 0, 0, 0, 0, 0, 0],
    }
}

pub fn added_words(added: Result<Counts, Refusal>) -> [u64; 4]
    ensures { result ≡ added_words added }
{
    match added {
        Ok(_) => [0, 0, 0, 0],
        Err(r) => refusal_words(r),
    }
}

// The totals that five words are.
pub fn totals_of(words: [u64; 5]) -> Counts
    ensures { result ≡ totals_of words }
{
    Counts {
        entries: words[0],
        field_bits: words[1],
        set_bits: words[2],
        tested: words[3],
        contained: words[4],
    }
}

// The words of totals behind an answer: after a refusal those of before.
pub fn totals_after(words: [u64; 5], added: Result<Counts, Refusal>) -> [u64; 5]
    ensures { result ≡ totals_after words added }
{
    match added {
        Ok(counts) => [
            counts.entries,
            counts.field_bits,
            counts.set_bits,
            counts.tested,
            counts.contained,
        ],
        Err(_) => words,
    }
}
