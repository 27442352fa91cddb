// An answer as words.
ghost use Rattle.std.specs.Prelude.{◌≡◌};
ghost use Rattle.wire_calls.specs.WireWords.{number_words, prefixed_words, hash_list_words};

use call_words::answer::refusal_words;
use rules::refusal::Refusal;
use wire::parse::Run;

pub fn number_words(n: Result<(u64, usize), Refusal>) -> [u64; 4]
    ensures { result ≡ number_words n }
{
    match n {
        Ok((value, next)) => [0, value, next as u64, 0],
        Err(r) => refusal_words(r),
    }
}

pub fn prefixed_words(p: Result<(usize, usize), Refusal>) -> [u64; 4]
    ensures { result ≡ prefixed_words p }
{
    match p {
        Ok((start, end)) => [0, start as u64, end as u64, 0],
        Err(r) => refusal_words(r),
    }
}

pub fn hash_list_words(h: Result<(Run, usize), Refusal>) -> [u64; 4]
    ensures { result ≡ hash_list_words h }
{
    match h {
        Ok((run, next)) => [0, run.start as u64, run.count as u64, next as u64],
        Err(r) => refusal_words(r),
    }
}
