// Heads: rows that no row depends on, ascending bytes.
ghost use Rattle.std.specs.Prelude.{not, ◌*◌, ◌≤◌, length};
ghost use Rattle.table_index.specs.Index.{Indexed};
ghost use Rattle.rules.specs.Hash.{hashes_bytes};
ghost use Rattle.rules.specs.Output.{Written, Output};
ghost use Rattle.rules.specs.Sizes.{sizes};
ghost use Rattle.table.specs.TableBytes.{rows_at, GoodRows};
ghost use Rattle.table_graph.specs.GraphCalls.{heads_output};
ghost use Rattle.table_graph.specs.Graph.{needed, heads};
ghost use Rattle.table_graph.specs.Internal.Marks.{Marks, Blank};

use crate::marked::{collect_marked, count_marked};
use crate::marks::{flip, mark_needed};
use rules::refusal::Refusal;
use rules::sizes::{HASH_SIZE, ROWS};
use table_check::check::check_indexed;

// Marks the heads of the first rows, where none is marked.
pub fn mark_heads(table: &[u8], before: usize, marks: &mut [bool])
    requires { GoodRows table.now before × (before ≤ length marks.old) × Blank before marks.old }
    ensures { Marks before marks.new (λ i. not (needed (rows_at table.now 0 before) i)) }
{
    mark_needed(table, before, marks);
    flip(before, marks);
}

// Writes the heads of a table's first rows, ascending, or refuses a buffer that is too short for them.
pub fn put_heads(
    table: &[u8],
    index: &[u8],
    n: usize,
    before: usize,
    out: &mut [u8],
) -> Result<usize, Refusal>
    requires { Indexed table.now index.now n × (before ≤ n) }
    ensures { Written (Output.bytes (hashes_bytes (heads (rows_at table.now 0 before)))) out.old out.new result }
{
    let mut marks = [false; ROWS];
    mark_heads(table, before, &mut marks);
    let size = HASH_SIZE * count_marked(before, &marks);
    if out.len() < size {
        return Err(Refusal::NoRoom(size));
    }
    collect_marked(table, index, n, before, &marks, out);
    Ok(size)
}

// The heads of the first rows of a table.
pub fn heads(table: &[u8], index: &[u8], before: usize, out: &mut [u8]) -> Result<usize, Refusal>
    ensures { Written (heads_output table.now index.now before) out.old out.new result }
{
    let n = check_indexed(table, index)?;
    if n < before {
        return Err(Refusal::BadRowsBefore);
    }
    put_heads(table, index, n, before, out)
}
