// The hashes sent in a session, as many as they are with those of a body.
ghost use Rattle.std.specs.Prelude.{true, not, ◌&&◌, List, ◌≡◌, ℕ, ◌*◌, ◌≤◌, length};
ghost use Rattle.table_index.specs.Index.{Indexed};
ghost use Rattle.hash_order.specs.Order.{member, ascends, every};
ghost use Rattle.rules.specs.Hash.{hashes_at};
ghost use Rattle.rules.specs.Sizes.{sizes};
ghost use Rattle.send.specs.Internal.Chosen.{chosen_by};
ghost use Rattle.table.specs.TableBytes.{rows_at};
ghost use Rattle.table.specs.Table.{hash_of, held};
ghost use Rattle.table_graph.specs.Internal.Marks.{Marks};
ghost use Rattle.plan_parts.specs.Internal.PlanParts.{SentBeside, FreshMarked};

use table_graph::marked::count_marked;
use table_graph::marks::{copy_marks, flip, mark_picked};

// Leaves just the rows of a body that weren't sent before where those that were are marked: of the document all others, and of a list, in which no
// such row is, all that it names.
fn mark_new(
    table: &[u8],
    index: &[u8],
    n: usize,
    document: bool,
    marks: &[bool],
    need: &[u8],
    count: usize,
    needs: &[bool],
    fresh: &mut [bool],
)
    requires { Indexed table.now index.now n × (n ≤ length marks.now) × (sizes.hash * count ≤ length need.now) × (count ≤ length needs.now)
        × (n ≤ length fresh.old) }
    ensures { (sent : List ℕ) → SentBeside (rows_at table.now 0 n) n document
        (chosen_by (rows_at table.now 0 n) marks.now (hashes_at need.now 0 count) needs.now)
        sent fresh.old
        → Marks n fresh.new (λ i. member (hash_of (rows_at table.now 0 n) i)
        (chosen_by (rows_at table.now 0 n) marks.now (hashes_at need.now 0 count) needs.now)
        && not (member (hash_of (rows_at table.now 0 n) i) sent)) }
{
    if document {
        flip(n, fresh);
        return;
    }
    copy_marks(n, marks, fresh);
    mark_picked(table, index, n, need, count, needs, fresh);
}

// Marks the rows of a body that weren't sent before, where those that were are marked, and returns how many hashes are sent with them: each of these
// rows adds one to the hashes sent, which ascend.
pub fn mark_fresh(
    table: &[u8],
    index: &[u8],
    n: usize,
    document: bool,
    marks: &[bool],
    need: &[u8],
    count: usize,
    needs: &[bool],
    before: usize,
    fresh: &mut [bool],
) -> usize
    requires { Indexed table.now index.now n × (n ≤ length marks.now) × (sizes.hash * count ≤ length need.now) × (count ≤ length needs.now)
        × (before ≤ sizes.sent_hashes) × (n ≤ length fresh.old)
        × (every (held (rows_at table.now 0 n)) (chosen_by (rows_at table.now 0 n) marks.now (hashes_at need.now 0 count) needs.now) ≡ true) }
    ensures { (sent : List ℕ) → SentBeside (rows_at table.now 0 n) n document
        (chosen_by (rows_at table.now 0 n) marks.now (hashes_at need.now 0 count) needs.now)
        sent fresh.old
        → ascends sent ≡ true → length sent ≡ before
        → FreshMarked (rows_at table.now 0 n) n
        (chosen_by (rows_at table.now 0 n) marks.now (hashes_at need.now 0 count) needs.now)
        sent fresh.new result }
{
    mark_new(table, index, n, document, marks, need, count, needs, fresh);
    before + count_marked(n, fresh)
}
