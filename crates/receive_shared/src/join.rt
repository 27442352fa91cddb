// The shared heads where nothing was loaded: those of before, of which any may be unknown here, joined with the message's heads that are held, each of
// which is a row.
ghost use Rattle.std.specs.Prelude.{not, ◌&&◌, ◌≡◌, ◌+◌, ◌*◌, ◌≤◌, length};
ghost use Rattle.std.proofs.lemmas.List.Edits.{sets};
ghost use Rattle.hash_order.specs.Order.{member};
ghost use Rattle.rules.specs.Hash.{hashes_at, hashes_bytes};
ghost use Rattle.rules.specs.Sizes.{sizes};
ghost use Rattle.session.specs.Receive.{join};
ghost use Rattle.table.specs.Table.{hash_of};
ghost use Rattle.table.specs.TableBytes.{rows_at};
ghost use Rattle.table_graph.specs.Internal.Marks.{Marks, Blank};
ghost use Rattle.table_index.specs.Index.{Indexed};

use hash_once::count::count_once;
use hash_once::merge::merge_marked;
use hash_once::order::order_once;
use rules::sizes::ROWS;
use table_graph::marked::count_marked;
use table_graph::marks::{mark_list, unmark};

// Marks the rows of the message's heads, less those of the first hashes of a list.
fn mark_joined(
    table: &[u8],
    index: &[u8],
    n: usize,
    list: &[u8],
    count: usize,
    message: &[u8],
    place: usize,
    many: usize,
    marks: &mut [bool],
)
    requires { Indexed table.now index.now n × (sizes.hash * count ≤ length list.now) × (place + sizes.hash * many ≤ length message.now)
        × (n ≤ length marks.old) × Blank n marks.old }
    ensures { Marks n marks.new (λ i. member (hash_of (rows_at table.now 0 n) i) (hashes_at message.now place many)
        && not (member (hash_of (rows_at table.now 0 n) i) (hashes_at list.now 0 count))) }
{
    let mut there = [false; ROWS];
    mark_list(table, index, n, list, 0, count, &mut there);
    mark_list(table, index, n, message, place, many, marks);
    unmark(n, marks, &there);
}

// How many heads are shared after a message with which nothing was loaded.
pub fn count_joined(
    table: &[u8],
    index: &[u8],
    n: usize,
    shared: &[u8],
    count: usize,
    message: &[u8],
    place: usize,
    many: usize,
) -> usize
    requires { Indexed table.now index.now n × (sizes.hash * count ≤ length shared.now) × (place + sizes.hash * many ≤ length message.now)
        × (count ≤ sizes.hashes) }
    ensures { result ≡ length (join (rows_at table.now 0 n) (hashes_at message.now place many) (hashes_at shared.now 0 count)) }
{
    let once = count_once(shared, count);
    let mut marks = [false; ROWS];
    mark_joined(
        table, index, n, shared, count, message, place, many, &mut marks,
    );
    once + count_marked(n, &marks)
}

// Puts the heads that are shared after a message with which nothing was loaded at the start of the list of those shared before: these are put in order
// where they stand, and the others, which are rows, merged with them.
pub fn put_joined(
    table: &[u8],
    index: &[u8],
    n: usize,
    shared: &mut [u8],
    count: usize,
    message: &[u8],
    place: usize,
    many: usize,
)
    requires { Indexed table.now index.now n × (sizes.hash * count ≤ length shared.old) × (place + sizes.hash * many ≤ length message.now)
        × (sizes.hash * length (join (rows_at table.now 0 n) (hashes_at message.now place many) (hashes_at shared.old 0 count)) ≤ length shared.old) }
    ensures { shared.new ≡ sets shared.old 0
        (hashes_bytes (join (rows_at table.now 0 n) (hashes_at message.now place many) (hashes_at shared.old 0 count))) }
{
    let ordered = order_once(shared, count);
    let mut marks = [false; ROWS];
    mark_joined(
        table, index, n, shared, ordered, message, place, many, &mut marks,
    );
    let total = ordered + count_marked(n, &marks);
    merge_marked(table, index, n, &marks, shared, ordered, total);
}
