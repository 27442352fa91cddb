// The counts of a capture.
ghost use Rattle.std.specs.Prelude.{true, ◌≡◌, length, Ok, Err};
ghost use Rattle.bloom.specs.FilterRead.{filter_at, after_filter};
ghost use Rattle.bloom.specs.Have.{filter_good, filter_with};
ghost use Rattle.bloom_probe.specs.Contains.{contains};
ghost use Rattle.counts.specs.Captures.{with_table, capture_counts, capture_counted};
ghost use Rattle.counts.specs.Internal.Walked.{tested_of};
ghost use Rattle.table.specs.Table.{held, rows};
ghost use Rattle.table.specs.TableBytes.{rows_at};
ghost use Rattle.table_index.specs.Index.{Indexed};

use crate::bits::set_bits;
use crate::held::mark_held;
use crate::tested::{Tested, test_rows};
use crate::totals::Counts;
use bloom::have::FilterNumbers;
use bloom::parse::parse;
use rules::refusal::Refusal;
use rules::sizes::ROWS;
use table::width::WIDE;
use table_check::check::check_in_order;
use table_order::entry::INDEX_SIZE;

// The listener's rows outside the sender's table, by a filter that stands in `bytes`.
fn test_outside(
    sender: &[u8],
    sender_index: &[u8],
    m: usize,
    listener: &[u8],
    index: &[u8],
    n: usize,
    bytes: &[u8],
    filter: FilterNumbers,
) -> Tested
    requires { Indexed sender.now sender_index.now m × Indexed listener.now index.now n × (filter_good bytes.now filter ≡ true) }
    ensures { result ≡ tested_of (held (rows_at sender.now 0 m)) (contains (filter_with bytes.now filter))
        (rows (rows_at listener.now 0 n)) }
{
    let mut marks = [false; ROWS];
    mark_held(sender, sender_index, m, listener, index, n, &mut marks);
    let haves = [
        0,
        0,
        filter.entries,
        filter.bits,
        filter.probes,
        filter.place as u64,
        filter.size as u64,
    ];
    test_rows(listener, n, &marks, bytes, &haves)
}

// The counts over two good tables and a filter that was read.
fn counts_of(
    sender: &[u8],
    sender_index: &[u8],
    m: usize,
    listener: &[u8],
    index: &[u8],
    n: usize,
    bytes: &[u8],
    filter: FilterNumbers,
) -> Counts
    requires { Indexed sender.now sender_index.now m × Indexed listener.now index.now n × (filter_good bytes.now filter ≡ true) }
    ensures { result ≡ capture_counts (rows_at sender.now 0 m) (rows_at listener.now 0 n) (filter_with bytes.now filter) }
{
    let tested = test_outside(sender, sender_index, m, listener, index, n, bytes, filter);
    let place = filter.place;
    let end = place + filter.size;
    Counts {
        entries: filter.entries,
        field_bits: 8 * (filter.size as u64),
        set_bits: set_bits(&bytes[place..end]),
        tested: tested.rows,
        contained: tested.contained,
    }
}

// The counts over two good tables: the filter's own refusals come last.
fn count_filter(
    sender: &[u8],
    sender_index: &[u8],
    m: usize,
    listener: &[u8],
    index: &[u8],
    n: usize,
    filter: &[u8],
) -> Result<Counts, Refusal>
    requires { Indexed sender.now sender_index.now m × Indexed listener.now index.now n }
    ensures { result ≡ after_filter (filter_at filter.now 0 (length filter.now)) Err
        (λ f next. Ok (capture_counts (rows_at sender.now 0 m) (rows_at listener.now 0 n) (filter_with filter.now f))) }
{
    let (f, _) = parse(filter, 0, filter.len())?;
    Ok(counts_of(sender, sender_index, m, listener, index, n, filter, f))
}

// The counts beside a good sender's table, whose m rows have an index: the listener's table is checked.
fn count_heard(
    sender: &[u8],
    sender_index: &[u8],
    m: usize,
    listener: &[u8],
    filter: &[u8],
) -> Result<Counts, Refusal>
    requires { Indexed sender.now sender_index.now m }
    ensures { result ≡ with_table listener.now
        (λ b. after_filter (filter_at filter.now 0 (length filter.now)) Err
        (λ f next. Ok (capture_counts (rows_at sender.now 0 m) b (filter_with filter.now f)))) }
{
    let mut index = [0u8; INDEX_SIZE];
    let n = check_in_order(WIDE, listener, &mut index)?;
    count_filter(sender, sender_index, m, listener, &index, n, filter)
}

// Counts a capture. Both tables are put in order here, so that no index is asked of whoever kept them.
pub fn count_capture(sender: &[u8], listener: &[u8], filter: &[u8]) -> Result<Counts, Refusal>
    ensures { result ≡ capture_counted sender.now listener.now filter.now }
{
    let mut index = [0u8; INDEX_SIZE];
    let m = check_in_order(WIDE, sender, &mut index)?;
    count_heard(sender, &index, m, listener, filter)
}
