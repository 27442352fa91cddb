// The members of S, as marks of rows: candidates that every filter misses, and candidates that depend on a member.
ghost use Rattle.std.specs.Prelude.{false, ◌≡◌, ◌+◌, ◌≤◌, length, get_or};
ghost use Rattle.bloom.specs.Have.{haves_of, GoodFilters};
ghost use Rattle.table_graph.specs.Graph.{below_row};
ghost use Rattle.table_graph.specs.Internal.Marks.{Marks, Blank};
ghost use Rattle.table_index.specs.Index.{Indexed};
ghost use Rattle.hash_order.specs.Order.{member};
ghost use Rattle.table.specs.TableBytes.{used_at, rows_at, GoodRows};
ghost use Rattle.table.specs.Table.{hash_of};
ghost use Rattle.send_members.specs.Internal.Members.{last_syncs, in_the_s, some_of, is_member, SyncsInside};

use bloom::have::{HAVE_WORDS, sync_count, sync_place};
use bloom_probe::contains::contains_hash;
use rules::sizes::ROWS;
use table::row::{ROW_SIZE, dep, dep_count};
use table_graph::marks::{mark_below, mark_list};

// Marks the rows of all haves' last-sync hashes.
fn mark_syncs(table: &[u8], index: &[u8], n: usize, bytes: &[u8], haves: &[u64], marks: &mut [bool])
    requires { Indexed table.now index.now n × SyncsInside bytes.now haves.now × (n ≤ length marks.old) × Blank n marks.old }
    ensures { Marks n marks.new
        (λ i. member (hash_of (rows_at table.now 0 n) i) (last_syncs (haves_of bytes.now haves.now))) }
{
    let total = haves.len() / HAVE_WORDS;
    for k in 0..total {
        let place = sync_place(haves, k);
        let count = sync_count(haves, k);
        mark_list(table, index, n, bytes, place, count, marks);
    }
}

// Marks the rows below all haves' last-sync hashes: those that aren't candidates.
fn mark_synced(
    table: &[u8],
    index: &[u8],
    n: usize,
    bytes: &[u8],
    haves: &[u64],
    marks: &mut [bool],
)
    requires { Indexed table.now index.now n × SyncsInside bytes.now haves.now × (n ≤ length marks.old) × Blank n marks.old }
    ensures { Marks n marks.new
        (below_row (rows_at table.now 0 n) (last_syncs (haves_of bytes.now haves.now))) }
{
    mark_syncs(table, index, n, bytes, haves, marks);
    mark_below(table, n, marks);
}

// Whether some row that row i depends on is marked.
fn some_marked(table: &[u8], i: usize, marks: &[bool]) -> bool
    requires { GoodRows table.now (i + 1) × (i ≤ length marks.now) }
    ensures { result ≡ some_of (λ k. get_or marks.now k false) (used_at table.now i) }
{
    let count = dep_count(table, i);
    for j in 0..count {
        let k = dep(table, i, j);
        if marks[k] {
            return true;
        }
    }
    false
}

// Whether row i is a member, where the members before it are marked. Its dependencies are looked at first: that is cheaper than the filters.
fn is_member(
    table: &[u8],
    i: usize,
    bytes: &[u8],
    haves: &[u64],
    synced: bool,
    members: &[bool],
) -> bool
    requires { GoodRows table.now (i + 1) × (i ≤ length members.now) × GoodFilters bytes.now haves.now }
    ensures { result ≡ is_member table.now i bytes.now haves.now synced members.now }
{
    if synced {
        return false;
    }
    if some_marked(table, i, members) {
        return true;
    }
    !contains_hash(bytes, haves, table, i * ROW_SIZE)
}

// Marks the members of S. From the first row to the last, so that the marks of a row's dependencies are final when its turn comes.
pub fn mark_s(
    table: &[u8],
    index: &[u8],
    n: usize,
    bytes: &[u8],
    haves: &[u64],
    members: &mut [bool],
)
    requires { Indexed table.now index.now n × GoodFilters bytes.now haves.now × SyncsInside bytes.now haves.now × (n ≤ length members.old) }
    ensures { Marks n members.new (in_the_s (rows_at table.now 0 n) (haves_of bytes.now haves.now)) }
{
    let mut synced = [false; ROWS];
    mark_synced(table, index, n, bytes, haves, &mut synced);
    for i in 0..n {
        let here = is_member(table, i, bytes, haves, synced[i], members);
        members[i] = here;
    }
}
