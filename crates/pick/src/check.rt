// The check of a pick.
ghost use Rattle.std.specs.Prelude.{true, not, List, ◌≡◌, ℕ, ◌*◌, ◌≤◌, leb, length};
ghost use Rattle.hash_order.specs.Order.{every};
ghost use Rattle.pick.specs.Internal.PickMarks.{RowMarks, row_may_go, MarksChecked};
ghost use Rattle.pick.specs.PickCalls.{check_answer};
ghost use Rattle.pick.specs.Picking.{first_broken, size_sum, empty_allowed, pick_checked};
ghost use Rattle.rules.specs.Hash.{hashes_at};
ghost use Rattle.rules.specs.Sizes.{sizes};
ghost use Rattle.table.specs.Table.{held};
ghost use Rattle.table.specs.TableBytes.{rows_at, GoodRows};
ghost use Rattle.table_graph.specs.Internal.Marks.{Blank};
ghost use Rattle.table_index.specs.Index.{Indexed};

use crate::goes::{goes_now, goes_with};
use rules::passed::{passed_hashes, passed_up_to};
use rules::refusal::Refusal;
use rules::sizes::{HASH_SIZE, HASHES_TO_SEND, ROWS};
use table_check::check::check_indexed;
use table_graph::marks::mark_list;
use table_index::look::look_up;

// Whether a row that a hash of the pick was found at breaks no rule; an unknown hash has none. `from` is the first row that it may be.
fn row_fits(
    table: &[u8],
    n: usize,
    row: usize,
    from: usize,
    listed: &[bool],
    picks: &[bool],
) -> bool
    requires { GoodRows table.now n × (n ≤ length listed.now) × (n ≤ length picks.now) }
    ensures { result ≡ row_may_go table.now n listed.now picks.now from row }
{
    if n <= row {
        return false;
    }
    if !listed[row] {
        return false;
    }
    if row < from {
        return false;
    }
    goes_with(table, row, listed, picks)
}

// The place of the first hash of a pick that breaks a rule, or how many hashes it has. Rows must ascend, so none can come twice.
fn first_broken(
    table: &[u8],
    index: &[u8],
    n: usize,
    pick: &[u8],
    count: usize,
    listed: &[bool],
    picks: &[bool],
) -> usize
    requires { Indexed table.now index.now n × (sizes.hash * count ≤ length pick.now) × (n ≤ length listed.now) × (n ≤ length picks.now)
        × RowMarks table.now n (hashes_at pick.now 0 count) picks.now }
    ensures { (list : List ℕ) → RowMarks table.now n list listed.now
        → result ≡ first_broken (rows_at table.now 0 n) list (hashes_at pick.now 0 count) 0 0 (hashes_at pick.now 0 count) }
{
    let mut from = 0;
    for k in 0..count {
        let row = look_up(table, index, n, pick, HASH_SIZE * k);
        if !row_fits(table, n, row, from, listed, picks) {
            return k;
        }
        from = row + 1;
    }
    count
}

// Whether the sizes of a pick's rows sum to no more than the budget. They are taken off what is left of it, as their sum may be past every number.
fn sum_fits(
    table: &[u8],
    index: &[u8],
    n: usize,
    row_sizes: &[u64],
    budget: u64,
    pick: &[u8],
    count: usize,
) -> bool
    requires { Indexed table.now index.now n × (n ≤ length row_sizes.now) × (sizes.hash * count ≤ length pick.now)
        × (every (held (rows_at table.now 0 n)) (hashes_at pick.now 0 count) ≡ true) }
    ensures { result ≡ leb (size_sum (rows_at table.now 0 n) row_sizes.now (hashes_at pick.now 0 count)) budget }
{
    let mut left = budget;
    for k in 0..count {
        let row = look_up(table, index, n, pick, HASH_SIZE * k);
        if left < row_sizes[row] {
            return false;
        }
        left -= row_sizes[row];
    }
    true
}

// Whether some row would go by itself, where none is picked.
fn some_goes(
    table: &[u8],
    n: usize,
    row_sizes: &[u64],
    budget: u64,
    listed: &[bool],
    none: &[bool],
) -> bool
    requires { GoodRows table.now n × (n ≤ length row_sizes.now) × (n ≤ length listed.now) × (n ≤ length none.now) × Blank n none.now }
    ensures { (list : List ℕ) → RowMarks table.now n list listed.now
        → result ≡ not (empty_allowed (rows_at table.now 0 n) list row_sizes.now budget) }
{
    for i in 0..n {
        if goes_now(table, i, row_sizes[i], budget, listed, none) {
            return true;
        }
    }
    false
}

// The check of the first hashes of a pick over the marks of the rows that are listed; it leaves the marks of those that are picked. Where a rule is
// broken, its place is told: that of the first hash which breaks one, else how many hashes the pick has.
pub fn check_marked(
    table: &[u8],
    index: &[u8],
    n: usize,
    row_sizes: &[u64],
    budget: u64,
    pick: &[u8],
    count: usize,
    listed: &[bool],
    picks: &mut [bool],
) -> Result<(), usize>
    requires { Indexed table.now index.now n × (sizes.hash * count ≤ length pick.now) × (count ≤ sizes.hashes)
        × (n ≤ length listed.now) × (n ≤ length picks.old) × Blank n picks.old }
    ensures { MarksChecked table.now n row_sizes.now budget (hashes_at pick.now 0 count)
        listed.now picks.new result }
{
    mark_list(table, index, n, pick, 0, count, picks);
    let place = first_broken(table, index, n, pick, count, listed, picks);
    if place < count {
        return Err(place);
    }
    if row_sizes.len() != n {
        return Err(count);
    }
    if !sum_fits(table, index, n, row_sizes, budget, pick, count) {
        return Err(count);
    }
    if 0 < count {
        return Ok(());
    }
    if some_goes(table, n, row_sizes, budget, listed, picks) {
        return Err(0);
    }
    Ok(())
}

// The check of a pick beside a list, where the table and both lists have been checked, with a broken rule's place.
fn check_listed(
    table: &[u8],
    index: &[u8],
    n: usize,
    list: &[u8],
    many: usize,
    row_sizes: &[u64],
    budget: u64,
    pick: &[u8],
    count: usize,
) -> Result<(), usize>
    requires { Indexed table.now index.now n × (sizes.hash * many ≤ length list.now) × (sizes.hash * count ≤ length pick.now)
        × (count ≤ sizes.hashes) }
    ensures { result ≡ pick_checked (rows_at table.now 0 n) (hashes_at list.now 0 many) row_sizes.now budget
        (hashes_at pick.now 0 count) }
{
    let mut listed = [false; ROWS];
    mark_list(table, index, n, list, 0, many, &mut listed);
    let mut picks = [false; ROWS];
    check_marked(
        table, index, n, row_sizes, budget, pick, count, &listed, &mut picks,
    )
}

// Whether a pick of a list may go, each lent as the bytes of its hashes; where it breaks a rule, 17 with its place.
pub fn check_pick(
    table: &[u8],
    index: &[u8],
    list: &[u8],
    row_sizes: &[u64],
    budget: u64,
    pick: &[u8],
) -> Result<(), Refusal>
    ensures { result ≡ check_answer table.now index.now list.now row_sizes.now budget pick.now }
{
    let n = check_indexed(table, index)?;
    let many = passed_up_to(HASHES_TO_SEND, list)?;
    let count = passed_hashes(pick)?;
    check_listed(table, index, n, list, many, row_sizes, budget, pick, count).map_err(
        Refusal::BadPick,
    )
}
