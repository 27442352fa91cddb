// The exported calls of the crate `counts_calls`.
ghost use Rattle.std.specs.Prelude.{◌≡◌};
ghost use Rattle.counts.specs.Captures.{capture_counted};
ghost use Rattle.counts_calls.specs.CountWords.{counted_words, CountsAdded};

#[unsafe(no_mangle)]
pub extern "C" fn bt_count_capture(
    sender: &[u8],
    listener: &[u8],
    filter: &[u8],
    answer: &mut [u64; 8],
)
    ensures { answer.new ≡ counted_words (capture_counted sender.now listener.now filter.now) }
{
    counts_calls::calls::bt_count_capture(sender, listener, filter, answer)
}

#[unsafe(no_mangle)]
pub extern "C" fn bt_add_counts(
    totals: &mut [u64; 5],
    entries: u64,
    field_bits: u64,
    set_bits: u64,
    tested: u64,
    contained: u64,
    answer: &mut [u64; 4],
)
    ensures { CountsAdded totals.old
        (record { entries = entries; field_bits = field_bits; set_bits = set_bits; tested = tested; contained = contained })
        totals.new answer.new }
{
    counts_calls::calls::bt_add_counts(
        totals, entries, field_bits, set_bits, tested, contained, answer,
    )
}
