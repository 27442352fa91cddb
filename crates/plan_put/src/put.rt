// The parts of a plan, each put into its buffer where some of it is counted.
ghost use Rattle.std.specs.Prelude.{◌++◌, ◌≡◌, ◌+◌, ◌*◌, ◌≤◌, length, replicate};
ghost use Rattle.std.proofs.lemmas.List.Edits.{sets};
ghost use Rattle.bloom_probe.specs.Build.{add_hashes};
ghost use Rattle.table_graph.specs.Internal.Marks.{marked, picked};
ghost use Rattle.table_index.specs.Index.{Indexed};
ghost use Rattle.hash_once.specs.Internal.Merge.{MergeReady};
ghost use Rattle.hash_order.specs.Order.{ascend};
ghost use Rattle.hash_refs.specs.Internal.Refs.{found_by, FoundRefs};
ghost use Rattle.rules.specs.Hash.{hashes_at};
ghost use Rattle.rules.specs.Sizes.{sizes};
ghost use Rattle.send.specs.Internal.Chosen.{chosen_by};
ghost use Rattle.table.specs.TableBytes.{row_size, rows_at, GoodRows};
ghost use Rattle.table.specs.Table.{rows};
ghost use Rattle.plan_decide.specs.Internal.Draft.{unless_none, list_put, have_put};
ghost use Rattle.plan_put.specs.Internal.PlanPut.{FieldReady, HaveReady, MessageReady, MessagePut, SessionReady, SessionPut};

use crate::field::fill_marked;
use hash_once::merge::merge_marked;
use hash_order::hashes::put_hashes;
use hash_refs::found::put_found;
use plan_decide::puts::Puts;
use rules::sizes::HASH_SIZE;
use send::chosen::put_chosen;
use table_graph::marked::collect_marked;

// Puts the marked rows, ascending.
fn put_ascending(table: &[u8], index: &[u8], n: usize, marks: &[bool], count: usize, out: &mut [u8])
    requires { Indexed table.now index.now n × (n ≤ length marks.now) × ((count ≡ 0 → ⊥) → sizes.hash * marked n marks.now ≤ length out.old) }
    ensures { out.new ≡ list_put count (ascend (picked (rows (rows_at table.now 0 n)) marks.now)) out.old }
{
    if count == 0 {
        return;
    }
    collect_marked(table, index, n, n, marks, out);
}

// Fills the field of the filter over the marked rows where it stands.
fn put_field(
    probes: u64,
    table: &[u8],
    n: usize,
    marks: &[bool],
    place: usize,
    size: usize,
    out: &mut [u8],
)
    requires { (n * row_size ≤ length table.now) × (n ≤ length marks.now) × (place + size ≤ length out.old) × FieldReady n marks.now size }
    ensures { out.new ≡ sets out.old place
        (unless_none size (add_hashes probes (replicate size 0) (picked (rows (rows_at table.now 0 n)) marks.now))) }
{
    if size == 0 {
        return;
    }
    let end = place + size;
    fill_marked(&mut out[place..end], probes, table, n, marks);
}

// Puts a have: the shared heads, then the field over the marked rows.
fn put_have(
    probes: u64,
    table: &[u8],
    n: usize,
    marks: &[bool],
    shared: &[u8],
    syncs: usize,
    size: usize,
    out: &mut [u8],
)
    requires { (n * row_size ≤ length table.now) × (n ≤ length marks.now) × HaveReady (length shared.now) syncs size (length out.old) × FieldReady n marks.now size }
    ensures { out.new ≡ have_put syncs shared.now size
        (add_hashes probes (replicate size 0) (picked (rows (rows_at table.now 0 n)) marks.now)) out.old }
{
    put_hashes(shared, 0, syncs, out);
    put_field(probes, table, n, marks, HASH_SIZE * syncs, size, out);
}

// Puts the hashes that the body's marks name.
fn put_body(
    table: &[u8],
    n: usize,
    marks: &[bool],
    their_need: &[u8],
    asked: usize,
    needs: &[bool],
    count: usize,
    out: &mut [u8],
)
    requires { GoodRows table.now n × (n ≤ length marks.now) × (sizes.hash * asked ≤ length their_need.now) × (asked ≤ length needs.now)
        × ((count ≡ 0 → ⊥) → sizes.hash * length (chosen_by (rows_at table.now 0 n) marks.now (hashes_at their_need.now 0 asked) needs.now) ≤ length out.old) }
    ensures { out.new ≡ list_put count
        (chosen_by (rows_at table.now 0 n) marks.now (hashes_at their_need.now 0 asked) needs.now) out.old }
{
    if count == 0 {
        return;
    }
    put_chosen(table, n, marks, their_need, 0, asked, needs, out);
}

// Merges the hashes of the rows that are sent now with those that were.
fn put_sent(
    table: &[u8],
    index: &[u8],
    n: usize,
    fresh: &[bool],
    before: usize,
    count: usize,
    sent: &mut [u8],
)
    requires { Indexed table.now index.now n × (n ≤ length fresh.now)
        × ((count ≡ 0 → ⊥) → MergeReady (rows_at table.now 0 n) n fresh.now sent.old before count) }
    ensures { sent.new ≡ list_put count
        (ascend (picked (rows (rows_at table.now 0 n)) fresh.now ++ hashes_at sent.old 0 before)) sent.old }
{
    if count == 0 {
        return;
    }
    merge_marked(table, index, n, fresh, sent, before, count);
}

// Puts what is asked for, which was found by its numbers.
pub fn put_need(
    count: usize,
    their_heads: &[u8],
    entries: usize,
    waiting: &[u8],
    refs: &[u32],
    need: &mut [u8],
)
    requires { (count ≡ 0 → ⊥) → FoundRefs their_heads.now 0 entries waiting.now refs.now count × (sizes.hash * count ≤ length need.old) }
    ensures { need.new ≡ list_put count
        (found_by their_heads.now 0 entries waiting.now refs.now count) need.old }
{
    if count == 0 {
        return;
    }
    put_found(their_heads, 0, entries, waiting, refs, count, need);
}

// Puts the message's other lists: the heads, the have, the hashes of the body.
pub fn put_message(
    p: Puts,
    probes: u64,
    table: &[u8],
    index: &[u8],
    n: usize,
    head_marks: &[bool],
    have_marks: &[bool],
    marks: &[bool],
    needs: &[bool],
    their_need: &[u8],
    asked: usize,
    shared: &[u8],
    heads: &mut [u8],
    have: &mut [u8],
    list: &mut [u8],
)
    requires { MessageReady p table.now index.now n head_marks.now have_marks.now marks.now needs.now their_need.now asked
        (length shared.now) (length heads.old) (length have.old) (length list.old) }
    ensures { MessagePut p probes (rows_at table.now 0 n) head_marks.now have_marks.now marks.now
        needs.now (hashes_at their_need.now 0 asked) shared.now
        heads.old have.old list.old heads.new have.new list.new }
{
    put_ascending(table, index, n, head_marks, p.heads, heads);
    put_have(probes, table, n, have_marks, shared, p.syncs, p.field, have);
    put_body(table, n, marks, their_need, asked, needs, p.hashes, list);
}

// Puts the session's lists that change: the heads, also where the message has none, and the hashes sent.
pub fn put_session(
    p: Puts,
    table: &[u8],
    index: &[u8],
    n: usize,
    head_marks: &[bool],
    fresh: &[bool],
    before: usize,
    last_sent: &mut [u8],
    sent: &mut [u8],
)
    requires { SessionReady p table.now index.now n head_marks.now fresh.now before (length last_sent.old) sent.old }
    ensures { SessionPut p (rows_at table.now 0 n) head_marks.now fresh.now before
        last_sent.old sent.old last_sent.new sent.new }
{
    put_ascending(table, index, n, head_marks, p.last_sent, last_sent);
    put_sent(table, index, n, fresh, before, p.sent, sent);
}
