// A plan as marks and numbers: its heads, the rows of its have's filter, its body, and the rows that are sent anew. Nothing that is lent is written.
ghost use Rattle.std.specs.Prelude.{true, ◌≡◌, ◌*◌, ◌/◌, ◌≤◌, length};
ghost use Rattle.table_graph.specs.Internal.Marks.{picked};
ghost use Rattle.table_index.specs.Index.{Indexed};
ghost use Rattle.session_check.specs.SessionGood.{heard_good, lent_of, session_good};
ghost use Rattle.hash_order.specs.Order.{ascend};
ghost use Rattle.rules.specs.Hash.{hashes_at};
ghost use Rattle.rules.specs.Sizes.{sizes};
ghost use Rattle.session_state.specs.Value.{heard_count, state_of};
ghost use Rattle.table.specs.TableBytes.{rows_at};
ghost use Rattle.table.specs.Table.{rows};
ghost use Rattle.session.specs.Plan.{body_of};
ghost use Rattle.plan_count.specs.Internal.PlanCount.{going_of, found_of, quiet_with, BlankMarks, PlanMarked, DraftCounted};

use crate::carried::{count_body, nothing_goes, pick_body};
use pick::radio::Radio;
use plan_decide::decide::Draft;
use plan_parts::have::{mark_beyond, unknown_sync};
use plan_parts::need::Asked;
use plan_parts::silence::{heard_as, is_silent, is_told};
use session_state::session::{Session, heard_count};
use table_graph::heads::mark_heads;
use table_graph::marked::count_marked;

// Whether there is nothing to say with the heads that are marked, where something goes or nothing.
fn is_quiet(
    session: Session,
    table: &[u8],
    index: &[u8],
    n: usize,
    head_marks: &[bool],
    last_sent: &[u8],
    their_heads: &[u8],
    nothing: bool,
) -> bool
    requires { Indexed table.now index.now n × (n ≤ length head_marks.now) × (sizes.hash * session.last_sent_heads ≤ length last_sent.now)
        × (heard_good their_heads.now session.their_heads ≡ true) }
    ensures { result ≡ quiet_with session last_sent.now their_heads.now
        (ascend (picked (rows (rows_at table.now 0 n)) head_marks.now)) nothing }
{
    let heard = session.their_heads;
    let told = is_told(
        session.have_responded,
        table,
        index,
        n,
        head_marks,
        last_sent,
        session.last_sent_heads,
    );
    let equal = heard_as(table, index, n, head_marks, their_heads, heard);
    is_silent(told, equal, session.read_only, nothing, session.in_flight)
}

// The numbers of a plan with what is asked for, and the marks of what they count. A have is given where nothing is asked for but heads that were heard.
pub fn count_plan(
    radio: Radio,
    row_sizes: &[u64],
    pick: &[u8],
    session: Session,
    table: &[u8],
    index: &[u8],
    n: usize,
    asked: Asked,
    shared: &[u8],
    last_sent: &[u8],
    their_heads: &[u8],
    their_need: &[u8],
    haves: &[u64],
    have_bytes: &[u8],
    sent: &[u8],
    head_marks: &mut [bool],
    have_marks: &mut [bool],
    marks: &mut [bool],
    needs: &mut [bool],
    fresh: &mut [bool],
) -> Draft
    requires { Indexed table.now index.now n
        × (session_good session (lent_of shared.now last_sent.now their_heads.now their_need.now haves.now have_bytes.now sent.now) ≡ true)
        × BlankMarks n (heard_count session.their_need) head_marks.old have_marks.old marks.old needs.old fresh.old
        × (length pick.now ≤ sizes.hashes * sizes.hash) }
    ensures { PlanMarked (rows_at table.now 0 n) n
        (state_of session (lent_of shared.now last_sent.now their_heads.now their_need.now
        haves.now have_bytes.now sent.now))
        (going_of radio (body_of (rows_at table.now 0 n)
        (state_of session (lent_of shared.now last_sent.now their_heads.now their_need.now
        haves.now have_bytes.now sent.now)))
        (hashes_at pick.now 0 (length pick.now / sizes.hash)))
        (found_of radio (rows_at table.now 0 n) (body_of (rows_at table.now 0 n)
        (state_of session (lent_of shared.now last_sent.now their_heads.now their_need.now
        haves.now have_bytes.now sent.now)))
        row_sizes.now (hashes_at pick.now 0 (length pick.now / sizes.hash)))
        (hashes_at their_need.now 0 (heard_count session.their_need))
        head_marks.new have_marks.new marks.new needs.new fresh.new result
        × DraftCounted (rows_at table.now 0 n)
        (state_of session (lent_of shared.now last_sent.now their_heads.now their_need.now
        haves.now have_bytes.now sent.now))
        (going_of radio (body_of (rows_at table.now 0 n)
        (state_of session (lent_of shared.now last_sent.now their_heads.now their_need.now
        haves.now have_bytes.now sent.now)))
        (hashes_at pick.now 0 (length pick.now / sizes.hash)))
        (found_of radio (rows_at table.now 0 n) (body_of (rows_at table.now 0 n)
        (state_of session (lent_of shared.now last_sent.now their_heads.now their_need.now
        haves.now have_bytes.now sent.now)))
        row_sizes.now (hashes_at pick.now 0 (length pick.now / sizes.hash)))
        asked result }
{
    let have = session.their_have;
    mark_heads(table, n, head_marks);
    let heads = count_marked(n, head_marks);
    let entries = mark_beyond(
        asked.heard,
        table,
        index,
        n,
        shared,
        session.shared_heads,
        have_marks,
    );
    let unknown = unknown_sync(table, index, n, have_bytes, haves, have);
    let whole = count_body(
        session, table, index, n, their_need, haves, have_bytes, sent, marks, needs, fresh,
    );
    let theirs = session.their_need;
    let carried = pick_body(
        radio,
        table,
        index,
        n,
        row_sizes,
        pick,
        sent,
        session.sent_hashes,
        heard_count(theirs),
        whole,
        marks,
        needs,
        fresh,
    );
    let body = carried.body;
    let picked = carried.picked;
    let silent = is_quiet(
        session,
        table,
        index,
        n,
        head_marks,
        last_sent,
        their_heads,
        nothing_goes(picked, body.hashes),
    );
    Draft {
        heads,
        need: asked.count,
        unknown,
        gives: asked.heard,
        entries,
        body,
        picked,
        silent,
        sent: carried.sent,
    }
}
