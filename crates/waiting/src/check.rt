// Whether a waiting table is good beside a change table: how many rows it has, else the refusal.
ghost use Rattle.std.specs.Prelude.{◌≡◌, ◌+◌, ◌*◌, ◌≤◌, length};
ghost use Rattle.table_index.specs.Index.{Indexed};
ghost use Rattle.rules.specs.Sizes.{sizes};
ghost use Rattle.table.specs.TableBytes.{rows_at};
ghost use Rattle.waiting.specs.WaitingBytes.{waiting_size, asks_count, waiting_good_of, waiting_checked, Sorted, FirstBad, InOrder};
ghost use Rattle.waiting.specs.WaitingCalls.{tables_checked};

use crate::find::{ORDER_SIZE, find_waiting};
use crate::row::{ASKS_PLACE, WAITING_SIZE};
use rules::refusal::Refusal;
use rules::sizes::{DEPENDENCIES, HASH_SIZE, WAITING_ROWS};
use rules::zeros::zero_bytes;
use table_check::check::check_indexed;
use table_index::look::look_up;
use table_index_build::extend::extend;

// How many hashes waiting row i says that it asks for.
pub fn asks_count(waiting: &[u8], i: usize) -> usize
    requires { (i + 1) * waiting_size ≤ length waiting.now }
    ensures { result ≡ asks_count waiting.now i }
{
    waiting[i * WAITING_SIZE + HASH_SIZE] as usize
}

// Whether waiting row i is good: its count, zeros in what isn't in use, and a hash that no earlier waiting row and none of the first n rows of
// the change table has.
fn waiting_good(
    table: &[u8],
    index: &[u8],
    n: usize,
    waiting: &[u8],
    order: &[u8],
    i: usize,
) -> bool
    requires { Indexed table.now index.now n × ((i + 1) * waiting_size ≤ length waiting.now) × Sorted waiting.now order.now i }
    ensures { result ≡ waiting_good_of sizes.dependencies (rows_at table.now 0 n) waiting.now i }
{
    let start = i * WAITING_SIZE;
    let count = asks_count(waiting, i);
    if DEPENDENCIES < count {
        return false;
    }
    if !zero_bytes(waiting, start + HASH_SIZE + 1, HASH_SIZE - 1) {
        return false;
    }
    if !zero_bytes(
        waiting,
        start + ASKS_PLACE + HASH_SIZE * count,
        HASH_SIZE * (DEPENDENCIES - count),
    ) {
        return false;
    }
    if find_waiting(waiting, order, i, waiting, start) != i {
        return false;
    }
    look_up(table, index, n, waiting, start) == n
}

// The first of the first m waiting rows that isn't good, or m. The good ones are put in order of their hashes, so that a repeated one shows.
fn first_bad_waiting(
    table: &[u8],
    index: &[u8],
    n: usize,
    waiting: &[u8],
    m: usize,
    order: &mut [u8],
) -> usize
    requires { Indexed table.now index.now n × (m * waiting_size ≤ length waiting.now) × (m ≤ sizes.waiting_rows) × (2 * m ≤ length order.old) }
    ensures { FirstBad (rows_at table.now 0 n) waiting.now m order.new result }
{
    for i in 0..m {
        if !waiting_good(table, index, n, waiting, order, i) {
            return i;
        }
        extend(waiting, WAITING_SIZE, order, i);
    }
    m
}

// The number of rows of a waiting table, if it is good beside the first n rows of a change table, and then their order for who looks them up. A
// partial row at its end is a bad one.
pub fn check_in_order(
    table: &[u8],
    index: &[u8],
    n: usize,
    waiting: &[u8],
    order: &mut [u8],
) -> Result<usize, Refusal>
    requires { Indexed table.now index.now n × (2 * sizes.waiting_rows ≤ length order.old) }
    ensures { InOrder (rows_at table.now 0 n) waiting.now order.new result }
{
    if WAITING_ROWS * WAITING_SIZE < waiting.len() {
        return Err(Refusal::PastSize(0));
    }
    let m = waiting.len() / WAITING_SIZE;
    let bad = first_bad_waiting(table, index, n, waiting, m, order);
    if bad < m {
        return Err(Refusal::BadWaitingRow(bad));
    }
    if waiting.len() % WAITING_SIZE != 0 {
        return Err(Refusal::BadWaitingRow(m));
    }
    Ok(m)
}

// Checks a waiting table for callers that look no waiting row up. Nearly always nothing waits, and then no memory is cleared for an order.
pub fn check_waiting(table: &[u8], index: &[u8], n: usize, waiting: &[u8]) -> Result<usize, Refusal>
    requires { Indexed table.now index.now n }
    ensures { result ≡ waiting_checked (rows_at table.now 0 n) waiting.now }
{
    if waiting.len() == 0 {
        return Ok(0);
    }
    let mut order = [0u8; ORDER_SIZE];
    check_in_order(table, index, n, waiting, &mut order)
}

// Checks a change table beside its index, and a waiting table beside both.
pub fn check_tables(table: &[u8], index: &[u8], waiting: &[u8]) -> Result<usize, Refusal>
    ensures { result ≡ tables_checked table.now index.now waiting.now }
{
    let n = check_indexed(table, index)?;
    check_waiting(table, index, n, waiting)
}
