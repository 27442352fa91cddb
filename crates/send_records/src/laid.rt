// The first haves of a list, laid as words.
ghost use Rattle.std.specs.Prelude.{◌≡◌};
ghost use Rattle.send_records.specs.Internal.RecordsLaid.{nothing_laid, with_next, laid_one, laid_many, laid_steps};

use crate::summary::{HaveSummary, get_or};
use bloom::have::HAVE_WORDS;
use rules::sizes::HAVES;

// Haves that are laid at most: one more than a list may have, so that a list that is too long is seen to be.
pub const LAID_HAVES: usize = HAVES + 1;

// The words of the haves that are laid at most.
pub const LAID_WORDS: usize = LAID_HAVES * HAVE_WORDS;

// The words of the first haves, and how many haves that is.
#[derive(Clone, Copy)]
pub struct Laid {
    pub words: [u64; LAID_WORDS],
    pub count: usize,
}

fn nothing_laid() -> Laid
    ensures { result ≡ nothing_laid }
{
    Laid {
        words: [0; LAID_WORDS],
        count: 0,
    }
}

// Lays the next have of `total`, if there is one and room for it.
fn with_next(laid: Laid, total: usize, have: HaveSummary) -> Laid
    ensures { result ≡ with_next laid total have }
{
    let count = laid.count;
    if total <= count {
        return laid;
    }
    if LAID_HAVES <= count {
        return laid;
    }
    let at = count * HAVE_WORDS;
    let mut words = laid.words;
    words[at] = have.place;
    words[at + 1] = have.count;
    words[at + 2] = have.entries;
    words[at + 3] = have.bits;
    words[at + 4] = have.probes;
    words[at + 5] = have.field;
    words[at + 6] = have.size;
    Laid {
        words,
        count: count + 1,
    }
}

// Lays the next have of a list.
fn lay_one(haves: &[HaveSummary], laid: Laid) -> Laid
    ensures { result ≡ laid_one haves.now laid }
{
    let have = get_or(haves, laid.count);
    with_next(laid, haves.len(), have)
}

// Lays the next five.
fn lay_five(haves: &[HaveSummary], laid: Laid) -> Laid
    ensures { result ≡ laid_many 5 haves.now laid }
{
    let one = lay_one(haves, laid);
    let two = lay_one(haves, one);
    let three = lay_one(haves, two);
    let four = lay_one(haves, three);
    lay_one(haves, four)
}

// Lays the first haves of a list: four times five are more than there is room for.
pub fn lay(haves: &[HaveSummary]) -> Laid
    ensures { result ≡ laid_many laid_steps haves.now nothing_laid }
{
    let none = nothing_laid();
    let five = lay_five(haves, none);
    let ten = lay_five(haves, five);
    let fifteen = lay_five(haves, ten);
    lay_five(haves, fifteen)
}
