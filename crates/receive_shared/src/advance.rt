// The shared heads where changes were loaded: each of them is a row.
ghost use Rattle.std.specs.Prelude.{false, ◌||◌, ◌&&◌, ◌≡◌, ◌+◌, ◌*◌, ◌≤◌, leb, length, get_or, take};
ghost use Rattle.std.proofs.lemmas.List.Edits.{sets};
ghost use Rattle.rules.specs.Hash.{hashes_at, hashes_bytes};
ghost use Rattle.rules.specs.Sizes.{sizes};
ghost use Rattle.session.specs.Receive.{advance, join};
ghost use Rattle.table.specs.TableBytes.{rows_at};
ghost use Rattle.table_graph.specs.Graph.{heads};
ghost use Rattle.table_graph.specs.Internal.Marks.{Marks, Blank};
ghost use Rattle.table_index.specs.Index.{Indexed};
ghost use Rattle.receive_shared.specs.Internal.Shared.{shared_row};

use rules::sizes::ROWS;
use table_graph::heads::mark_heads;
use table_graph::marked::{collect_marked, count_marked};
use table_graph::marks::mark_list;

// Takes the marks off the rows of before that others don't mark: a row of before that is a head now was one then, and stays shared only if it was.
fn keep_shared(n: usize, before: usize, others: &[bool], marks: &mut [bool])
    requires { (before ≤ n) × (n ≤ length others.now) × (n ≤ length marks.old) }
    ensures { Marks n marks.new (λ i. get_or marks.old i false && (leb before i || get_or others.now i false)) }
{
    for i in 0..before {
        if !others[i] {
            marks[i] = false;
        }
    }
}

// Marks the rows that are shared after changes were loaded: the message's heads, and of the heads now those that are new and those that were shared.
fn mark_advanced(
    table: &[u8],
    index: &[u8],
    n: usize,
    before: usize,
    shared: &[u8],
    count: usize,
    message: &[u8],
    place: usize,
    many: usize,
    marks: &mut [bool],
)
    requires { Indexed table.now index.now n × (before ≤ n) × (sizes.hash * count ≤ length shared.now) × (place + sizes.hash * many ≤ length message.now)
        × (n ≤ length marks.old) × Blank n marks.old }
    ensures { Marks n marks.new
        (shared_row before (rows_at table.now 0 n) (hashes_at shared.now 0 count) (hashes_at message.now place many)) }
{
    let mut was_shared = [false; ROWS];
    mark_list(table, index, n, shared, 0, count, &mut was_shared);
    mark_heads(table, n, marks);
    keep_shared(n, before, &was_shared, marks);
    mark_list(table, index, n, message, place, many, marks);
}

// How many heads are shared after changes were loaded.
pub fn count_advanced(
    table: &[u8],
    index: &[u8],
    n: usize,
    before: usize,
    shared: &[u8],
    count: usize,
    message: &[u8],
    place: usize,
    many: usize,
) -> usize
    requires { Indexed table.now index.now n × (before ≤ n) × (sizes.hash * count ≤ length shared.now)
        × (place + sizes.hash * many ≤ length message.now) }
    ensures { result ≡ length (join (rows_at table.now 0 n) (hashes_at message.now place many)
        (advance (heads (take before (rows_at table.now 0 n))) (heads (rows_at table.now 0 n)) (hashes_at shared.now 0 count))) }
{
    let mut marks = [false; ROWS];
    mark_advanced(
        table, index, n, before, shared, count, message, place, many, &mut marks,
    );
    count_marked(n, &marks)
}

// Puts the heads that are shared after changes were loaded at the start of the list of those shared before: these are marks once anything is written.
pub fn put_advanced(
    table: &[u8],
    index: &[u8],
    n: usize,
    before: usize,
    shared: &mut [u8],
    count: usize,
    message: &[u8],
    place: usize,
    many: usize,
)
    requires { Indexed table.now index.now n × (before ≤ n) × (sizes.hash * count ≤ length shared.old) × (place + sizes.hash * many ≤ length message.now)
        × (sizes.hash * length (join (rows_at table.now 0 n) (hashes_at message.now place many)
        (advance (heads (take before (rows_at table.now 0 n))) (heads (rows_at table.now 0 n)) (hashes_at shared.old 0 count))) ≤ length shared.old) }
    ensures { shared.new ≡ sets shared.old 0 (hashes_bytes (join (rows_at table.now 0 n) (hashes_at message.now place many)
        (advance (heads (take before (rows_at table.now 0 n))) (heads (rows_at table.now 0 n)) (hashes_at shared.old 0 count)))) }
{
    let mut marks = [false; ROWS];
    mark_advanced(
        table, index, n, before, shared, count, message, place, many, &mut marks,
    );
    collect_marked(table, index, n, n, &marks, shared);
}
