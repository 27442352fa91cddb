// A message's heads beside a table: which rows they are, and whether they are the heads that the table had before.
ghost use Rattle.std.specs.Prelude.{false, ◌≡◌, ◌+◌, ◌*◌, ◌≤◌, length};
ghost use Rattle.table_graph.specs.Graph.{heads};
ghost use Rattle.table_graph.specs.Internal.Marks.{Blank};
ghost use Rattle.table_index.specs.Index.{Indexed};
ghost use Rattle.hash_lists.specs.Lists.{same};
ghost use Rattle.rules.specs.Hash.{hashes_at};
ghost use Rattle.rules.specs.Sizes.{sizes};
ghost use Rattle.table.specs.TableBytes.{rows_at, GoodRows};
ghost use Rattle.table.specs.Table.{rows};
ghost use Rattle.receive_parts.specs.Internal.ReceiveParts.{HeadsMarked};

use hash_lists::compare::is_in;
use rules::sizes::{HASH_SIZE, ROWS};
use table::row::ROW_SIZE;
use table_graph::heads::mark_heads;
use table_graph::marked::same_marked;
use table_graph::marks::mark_below;
use table_index::look::look_up;

// Says whether all of a message's heads are held and, where hashes were sent, marks their rows and all below them: one look-up a head tells both.
pub fn mark_known(
    table: &[u8],
    index: &[u8],
    n: usize,
    message: &[u8],
    place: usize,
    many: usize,
    sent: usize,
    marks: &mut [bool],
) -> bool
    requires { Indexed table.now index.now n × (place + sizes.hash * many ≤ length message.now) × (n ≤ length marks.old) × Blank n marks.old }
    ensures { HeadsMarked table.now n (hashes_at message.now place many) sent marks.new result }
{
    let mut all = true;
    for k in 0..many {
        let row = look_up(table, index, n, message, place + HASH_SIZE * k);
        if row < n {
            marks[row] = true;
        } else {
            all = false;
        }
    }
    if sent == 0 {
        return all;
    }
    mark_below(table, n, marks);
    all
}

// Whether a message's heads have the last of a table's first rows, if there is one. It is always a head, as rows depend on rows before them: one look
// tells most other heads apart.
fn has_last(table: &[u8], before: usize, message: &[u8], place: usize, many: usize) -> bool
    requires { GoodRows table.now before × (place + sizes.hash * many ≤ length message.now) }
    ensures { result ≡ false → same (hashes_at message.now place many) (heads (rows_at table.now 0 before)) ≡ false }
{
    if before == 0 {
        return true;
    }
    is_in(table, (before - 1) * ROW_SIZE, message, place, many)
}

// Whether a message's heads are those of a table's first rows.
pub fn heads_before(
    table: &[u8],
    index: &[u8],
    n: usize,
    before: usize,
    message: &[u8],
    place: usize,
    many: usize,
) -> bool
    requires { Indexed table.now index.now n × (before ≤ n) × (place + sizes.hash * many ≤ length message.now) }
    ensures { result ≡ same (hashes_at message.now place many) (heads (rows_at table.now 0 before)) }
{
    if !has_last(table, before, message, place, many) {
        return false;
    }
    let mut marks = [false; ROWS];
    mark_heads(table, before, &mut marks);
    same_marked(table, index, n, before, &marks, message, place, many)
}
