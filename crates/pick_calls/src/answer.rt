// An answer as words.
ghost use Rattle.std.specs.Prelude.{◌≡◌};
ghost use Rattle.pick_calls.specs.PickWords.{pick_words};

use call_words::answer::refusal_words;
use rules::refusal::Refusal;

pub fn pick_words(found: Result<(), Refusal>) -> [u64; 4]
    ensures { result ≡ pick_words found }
{
    match found {
        Ok(()) => [0, 0, 0, 0],
        Err(r) => refusal_words(r),
    }
}
