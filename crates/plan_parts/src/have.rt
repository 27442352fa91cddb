// The have that a unit gives, and whether the peer's first have is one that can be answered.
ghost use Rattle.std.specs.Prelude.{true, ◌≡◌, ◌*◌, ◌≤◌, length};
ghost use Rattle.table_graph.specs.Internal.Marks.{Blank};
ghost use Rattle.table_index.specs.Index.{Indexed};
ghost use Rattle.session_check.specs.SessionGood.{haves_good};
ghost use Rattle.rules.specs.Hash.{hashes_at};
ghost use Rattle.rules.specs.Sizes.{sizes};
ghost use Rattle.session.specs.Plan.{unknown_sync};
ghost use Rattle.session_state.specs.Value.{heard_haves};
ghost use Rattle.table.specs.TableBytes.{rows_at};
ghost use Rattle.plan_parts.specs.Internal.PlanParts.{HaveCounted};

use bloom::have::{sync_count, sync_place};
use hash_lists::compare::all_held;
use session_state::session::heard_count;
use table_graph::beyond::mark_at_or_below;
use table_graph::marked::count_marked;
use table_graph::marks::flip;

// Marks the rows beyond the shared heads, which the filter of a have that is given is over, and returns how many they are; none where none is given.
pub fn mark_beyond(
    gives: bool,
    table: &[u8],
    index: &[u8],
    n: usize,
    shared: &[u8],
    count: usize,
    marks: &mut [bool],
) -> usize
    requires { Indexed table.now index.now n × (sizes.hash * count ≤ length shared.now) × (n ≤ length marks.old) × Blank n marks.old }
    ensures { HaveCounted (rows_at table.now 0 n) n gives (hashes_at shared.now 0 count) marks.new result }
{
    if !gives {
        return 0;
    }
    mark_at_or_below(table, index, n, shared, 0, count, marks);
    flip(n, marks);
    count_marked(n, marks)
}

// Whether the first have that was heard, if there is one, names a last-sync hash that isn't held.
pub fn unknown_sync(
    table: &[u8],
    index: &[u8],
    n: usize,
    have_bytes: &[u8],
    haves: &[u64],
    have: Option<usize>,
) -> bool
    requires { Indexed table.now index.now n × (haves_good have_bytes.now haves.now have ≡ true) }
    ensures { result ≡ unknown_sync (rows_at table.now 0 n) (heard_haves have_bytes.now haves.now have) }
{
    if heard_count(have) == 0 {
        return false;
    }
    !all_held(
        table,
        index,
        n,
        have_bytes,
        sync_place(haves, 0),
        sync_count(haves, 0),
    )
}
