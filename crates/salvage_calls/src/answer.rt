// An answer as words.
ghost use Rattle.std.specs.Prelude.{◌≡◌};
ghost use Rattle.salvage_calls.specs.SalvageWords.{salvage_words};

use call_words::answer::refusal_words;
use rules::refusal::Refusal;
use salvage::salvage::Amounts;

pub fn salvage_words(salvaging: Result<Amounts, Refusal>) -> [u64; 4]
    ensures { result ≡ salvage_words salvaging }
{
    match salvaging {
        Ok(amounts) => [
            0,
            amounts.rows as u64,
            amounts.report as u64,
            amounts.partial as u64,
        ],
        Err(r) => refusal_words(r),
    }
}
