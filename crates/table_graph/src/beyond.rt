// Rows beyond a list: neither in it nor ancestors of what it has, in table order.
ghost use Rattle.std.specs.Prelude.{◌+◌, ◌*◌, ◌≤◌, length};
ghost use Rattle.table_index.specs.Index.{Indexed};
ghost use Rattle.rules.specs.Hash.{hashes_at, hashes_bytes};
ghost use Rattle.rules.specs.Output.{Written, Output};
ghost use Rattle.rules.specs.Sizes.{sizes};
ghost use Rattle.table.specs.TableBytes.{rows_at};
ghost use Rattle.table_graph.specs.GraphCalls.{beyond_output};
ghost use Rattle.table_graph.specs.Graph.{below_row, beyond};
ghost use Rattle.table_graph.specs.Internal.Marks.{Marks, Blank};

use crate::marked::{count_marked, put_marked};
use crate::marks::{flip, mark_below, mark_list};
use rules::passed::passed_hashes;
use rules::refusal::Refusal;
use rules::sizes::{HASH_SIZE, ROWS};
use table_check::check::check_indexed;

// Marks the rows of a list and all below them.
pub fn mark_at_or_below(
    table: &[u8],
    index: &[u8],
    n: usize,
    l: &[u8],
    place: usize,
    count: usize,
    marks: &mut [bool],
)
    requires { Indexed table.now index.now n × (place + sizes.hash * count ≤ length l.now) × (n ≤ length marks.old) × Blank n marks.old }
    ensures { Marks n marks.new (below_row (rows_at table.now 0 n) (hashes_at l.now place count)) }
{
    mark_list(table, index, n, l, place, count, marks);
    mark_below(table, n, marks);
}

// The rows beyond the first hashes of a list, of a table that has been checked.
pub fn put_beyond(
    table: &[u8],
    index: &[u8],
    n: usize,
    l: &[u8],
    count: usize,
    out: &mut [u8],
) -> Result<usize, Refusal>
    requires { Indexed table.now index.now n × (sizes.hash * count ≤ length l.now) }
    ensures { Written (Output.bytes (hashes_bytes (beyond (rows_at table.now 0 n) (hashes_at l.now 0 count))))
        out.old out.new result }
{
    let mut marks = [false; ROWS];
    mark_at_or_below(table, index, n, l, 0, count, &mut marks);
    flip(n, &mut marks);
    let size = HASH_SIZE * count_marked(n, &marks);
    if out.len() < size {
        return Err(Refusal::NoRoom(size));
    }
    put_marked(table, n, &marks, out, 0);
    Ok(size)
}

// The rows beyond a list that is lent as the bytes of its hashes.
pub fn beyond(table: &[u8], index: &[u8], l: &[u8], out: &mut [u8]) -> Result<usize, Refusal>
    ensures { Written (beyond_output table.now index.now l.now) out.old out.new result }
{
    let n = check_indexed(table, index)?;
    let count = passed_hashes(l)?;
    put_beyond(table, index, n, l, count, out)
}
