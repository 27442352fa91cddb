// The planner: rows in table order, whatever still fits and has its listed dependencies picked.
ghost use Rattle.std.specs.Prelude.{List, ℕ, ◌*◌, ◌≤◌, length};
ghost use Rattle.pick.specs.Internal.PickMarks.{RowMarks, MarksPicked};
ghost use Rattle.pick.specs.PickCalls.{pick_output};
ghost use Rattle.pick.specs.Picking.{pick_of};
ghost use Rattle.rules.specs.Hash.{hashes_at, hashes_bytes};
ghost use Rattle.rules.specs.Output.{Written, Output};
ghost use Rattle.rules.specs.Sizes.{sizes};
ghost use Rattle.table.specs.TableBytes.{rows_at, GoodRows};
ghost use Rattle.table_graph.specs.Internal.Marks.{Blank};
ghost use Rattle.table_index.specs.Index.{Indexed};

use crate::goes::goes_now;
use rules::passed::passed_up_to;
use rules::refusal::Refusal;
use rules::sizes::{HASH_SIZE, HASHES_TO_SEND, ROWS};
use table_check::check::check_indexed;
use table_graph::marked::put_marked;
use table_graph::marks::mark_list;

// Marks the rows that are picked and returns how many they are. A row's dependencies have smaller numbers, so their marks are final when its turn comes.
fn pick_marked(
    table: &[u8],
    n: usize,
    row_sizes: &[u64],
    budget: u64,
    listed: &[bool],
    picks: &mut [bool],
) -> usize
    requires { GoodRows table.now n × (n ≤ length row_sizes.now) × (n ≤ length listed.now) × (n ≤ length picks.old) × Blank n picks.old }
    ensures { (list : List ℕ) → RowMarks table.now n list listed.now
        → MarksPicked table.now n row_sizes.now budget list picks.new result }
{
    let mut left = budget;
    let mut count = 0;
    for row in 0..n {
        if goes_now(table, row, row_sizes[row], left, listed, picks) {
            left -= row_sizes[row];
            picks[row] = true;
            count += 1;
        }
    }
    count
}

// Puts the planner's pick, where the table and the list have been checked.
fn put_picked(
    table: &[u8],
    index: &[u8],
    n: usize,
    list: &[u8],
    many: usize,
    row_sizes: &[u64],
    budget: u64,
    out: &mut [u8],
) -> Result<usize, Refusal>
    requires { Indexed table.now index.now n × (sizes.hash * many ≤ length list.now) × (n ≤ length row_sizes.now) }
    ensures { Written (Output.bytes (hashes_bytes (pick_of (rows_at table.now 0 n) (hashes_at list.now 0 many)
        row_sizes.now budget))) out.old out.new result }
{
    let mut listed = [false; ROWS];
    mark_list(table, index, n, list, 0, many, &mut listed);
    let mut picks = [false; ROWS];
    let size = HASH_SIZE * pick_marked(table, n, row_sizes, budget, &listed, &mut picks);
    if out.len() < size {
        return Err(Refusal::NoRoom(size));
    }
    put_marked(table, n, &picks, out, 0);
    Ok(size)
}

// Writes what goes now of a list that is lent as the bytes of its hashes.
pub fn pick(
    table: &[u8],
    index: &[u8],
    list: &[u8],
    row_sizes: &[u64],
    budget: u64,
    out: &mut [u8],
) -> Result<usize, Refusal>
    ensures { Written (pick_output table.now index.now list.now row_sizes.now budget)
        out.old out.new result }
{
    let n = check_indexed(table, index)?;
    let many = passed_up_to(HASHES_TO_SEND, list)?;
    if row_sizes.len() != n {
        return Err(Refusal::BadPick(0));
    }
    put_picked(table, index, n, list, many, row_sizes, budget, out)
}
