// Calls of the crate `counts`.
ghost use Rattle.std.specs.Prelude.{◌≡◌};
ghost use Rattle.counts.specs.Captures.{capture_counted};
ghost use Rattle.counts_calls.specs.CountWords.{counted_words, CountsAdded};

use crate::answer::{added_words, counted_words, totals_after, totals_of};
use counts::totals::Counts;

// Counts a capture: the filter in `filter`, with its sender's change table in `sender` and its listener's in `listener`. No index is asked for. Answer:
// 0, the filter's entries, the bits of its field, how many of them are set, how many rows of the listener the sender's table hasn't, and how many of
// these the filter contains nevertheless, then two zeros; or the sender's table's refusal, 4 and 0 or 6 and its first bad row, else the listener's, else
// the filter's, with places from its first byte.
#[unsafe(no_mangle)]
pub extern "C" fn bt_count_capture(
    sender: &[u8],
    listener: &[u8],
    filter: &[u8],
    answer: &mut [u64; 8],
)
    ensures { answer.new ≡ counted_words (capture_counted sender.now listener.now filter.now) }
{
    *answer = counted_words(counts::count::count_capture(sender, listener, filter));
}

// Adds a capture's counts to `totals`: entries, field bits, set bits, rows tested, rows contained. Answer: 0; or 16 and 0 where a total would pass 64
// bits, and then no total has changed.
#[unsafe(no_mangle)]
pub extern "C" fn bt_add_counts(
    totals: &mut [u64; 5],
    entries: u64,
    field_bits: u64,
    set_bits: u64,
    tested: u64,
    contained: u64,
    answer: &mut [u64; 4],
)
    ensures { CountsAdded totals.old
        (record { entries = entries; field_bits = field_bits; set_bits = set_bits; tested = tested; contained = contained })
        totals.new answer.new }
{
    let before = *totals;
    let counts = Counts {
        entries,
        field_bits,
        set_bits,
        tested,
        contained,
    };
    let added = counts::totals::add_counts(totals_of(before), counts);
    *totals = totals_after(before, added);
    *answer = added_words(added);
}
