// An answer as words.
ghost use Rattle.std.specs.Prelude.{◌≡◌};
ghost use Rattle.call_words.specs.Answer.{refusal_words, write_words};

use rules::refusal::Refusal;

pub fn refusal_words(r: Refusal) -> [u64; 4]
    ensures { result ≡ refusal_words r }
{
    [r.number(), r.value(), 0, 0]
}

// Of a call that writes or checks: how many bytes it wrote, or how many rows or records it found good.
pub fn write_words(o: Result<usize, Refusal>) -> [u64; 4]
    ensures { result ≡ write_words o }
{
    match o {
        Ok(count) => [0, count as u64, 0, 0],
        Err(r) => refusal_words(r),
    }
}
