// An offer's answer as words.
ghost use Rattle.std.specs.Prelude.{◌≡◌};
ghost use Rattle.offer_calls.specs.OfferWords.{offer_words};

use call_words::answer::refusal_words;
use rules::refusal::Refusal;

pub fn offer_words(offered: Result<(bool, usize), Refusal>) -> [u64; 4]
    ensures { result ≡ offer_words offered }
{
    match offered {
        Ok((document, hashes)) => [0, document as u64, hashes as u64, 0],
        Err(r) => refusal_words(r),
    }
}
