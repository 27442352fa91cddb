// What a message carries: the body that the session asks for, or a pick of it.
ghost use Rattle.std.specs.Prelude.{true, ◌&&◌, List, ◌≡◌, ℕ, ◌/◌, ◌≤◌, eqb, length};
ghost use Rattle.hash_order.specs.Order.{member};
ghost use Rattle.pick.specs.Picking.{pick_checked};
ghost use Rattle.plan_parts.specs.Internal.PlanParts.{BlankBody};
ghost use Rattle.rules.specs.Hash.{hashes_at};
ghost use Rattle.rules.specs.Sizes.{sizes};
ghost use Rattle.session.specs.Plan.{Body, list_of, is_fine};
ghost use Rattle.session_state.specs.Value.{heard_count};
ghost use Rattle.table.specs.TableBytes.{rows_at};
ghost use Rattle.table.specs.Table.{hash_of};
ghost use Rattle.table_graph.specs.Internal.Marks.{Marks, Blank};
ghost use Rattle.plan_count.specs.Internal.PlanCount.{
  BodyReady,
  carried_body,
  BodyCounted,
  going_of,
  found_of,
  BodyGoes,
  Unsent,
  PickReady,
};

use hash_once::count::count_joined;
use pick::check::check_marked;
use pick::radio::Radio;
use plan_parts::body::{BodyCount, mark_body};
use plan_parts::sent::mark_fresh;
use plan_parts::silence::heard_none;
use rules::sizes::HASH_SIZE;
use session_state::session::{Session, heard_count};
use table_graph::marks::{copy_marks, mark_list, set_marks};

// What a message carries, how a pick of it was found, which is the place of 17 where it breaks a rule, and how many hashes are sent with it.
#[derive(Clone, Copy)]
pub struct Carried {
    pub body: BodyCount,
    pub picked: Result<(), usize>,
    pub sent: usize,
}

// Marks the needs and rows that the message carries, and the rows among them that weren't sent before: those that were are marked first, in the same
// place.
pub fn count_body(
    session: Session,
    table: &[u8],
    index: &[u8],
    n: usize,
    their_need: &[u8],
    haves: &[u64],
    have_bytes: &[u8],
    sent: &[u8],
    marks: &mut [bool],
    needs: &mut [bool],
    fresh: &mut [bool],
) -> Carried
    requires { BodyReady table.now index.now n session their_need.now haves.now have_bytes.now sent.now
        × BlankBody n (heard_count session.their_need) marks.old needs.old × (n ≤ length fresh.old) × Blank n fresh.old }
    ensures { (their_heads : List ℕ) → BodyCounted (rows_at table.now 0 n) n
        (carried_body (rows_at table.now 0 n) session their_heads their_need.now haves.now have_bytes.now
        sent.now)
        (hashes_at their_need.now 0 (heard_count session.their_need)) (hashes_at sent.now 0 session.sent_hashes)
        marks.new needs.new fresh.new result }
{
    let heads = session.their_heads;
    let have = session.their_have;
    let need = session.their_need;
    let before = session.sent_hashes;
    mark_list(table, index, n, sent, 0, before, fresh);
    let body = mark_body(
        table,
        index,
        n,
        session.peer_read_only,
        session.supports_v2,
        heard_none(heads),
        have_bytes,
        haves,
        have,
        their_need,
        need,
        fresh,
        marks,
        needs,
    );
    let count = mark_fresh(
        table,
        index,
        n,
        body.document,
        marks,
        their_need,
        heard_count(need),
        needs,
        before,
        fresh,
    );
    Carried {
        body,
        picked: Ok(()),
        sent: count,
    }
}

// Takes a pick in the place of the listed rows, which are marked: what it names is marked where they were. How many hashes are sent is counted whether or
// not it is accepted, since 4 for them comes before 17.
fn pick_list(
    budget: u64,
    table: &[u8],
    index: &[u8],
    n: usize,
    row_sizes: &[u64],
    pick: &[u8],
    sent: &[u8],
    before: usize,
    asked: usize,
    marks: &mut [bool],
    needs: &mut [bool],
    fresh: &mut [bool],
) -> Carried
    requires { PickReady table.now index.now n (length pick.now) sent.now before asked (length marks.old) (length needs.old) (length fresh.old) }
    ensures { (list need : List ℕ) → length need ≡ asked
        → Marks n fresh.old (λ i. member (hash_of (rows_at table.now 0 n) i) list)
        → Unsent (list_of list) (hashes_at sent.now 0 before)
        → BodyGoes (rows_at table.now 0 n) n (list_of (hashes_at pick.now 0 (length pick.now / sizes.hash)))
        (pick_checked (rows_at table.now 0 n) list row_sizes.now budget (hashes_at pick.now 0 (length pick.now / sizes.hash)))
        need (hashes_at sent.now 0 before) marks.new needs.new fresh.new result }
{
    let count = pick.len() / HASH_SIZE;
    set_marks(n, false, marks);
    set_marks(asked, false, needs);
    let picked = check_marked(
        table, index, n, row_sizes, budget, pick, count, fresh, marks,
    );
    copy_marks(n, marks, fresh);
    Carried {
        body: BodyCount {
            document: false,
            hashes: count,
        },
        picked,
        sent: count_joined(pick, count, sent, before),
    }
}

// What goes of a body that was counted: all of it, or with a radio that is limited the document whole and else the pick.
pub fn pick_body(
    radio: Radio,
    table: &[u8],
    index: &[u8],
    n: usize,
    row_sizes: &[u64],
    pick: &[u8],
    sent: &[u8],
    before: usize,
    asked: usize,
    carried: Carried,
    marks: &mut [bool],
    needs: &mut [bool],
    fresh: &mut [bool],
) -> Carried
    requires { PickReady table.now index.now n (length pick.now) sent.now before asked (length marks.old) (length needs.old) (length fresh.old) }
    ensures { (b : Body) (need : List ℕ) → length need ≡ asked
        → BodyCounted (rows_at table.now 0 n) n b need (hashes_at sent.now 0 before) marks.old needs.old
        fresh.old carried
        → Unsent b (hashes_at sent.now 0 before)
        → BodyGoes (rows_at table.now 0 n) n (going_of radio b (hashes_at pick.now 0 (length pick.now / sizes.hash)))
        (found_of radio (rows_at table.now 0 n) b row_sizes.now (hashes_at pick.now 0 (length pick.now / sizes.hash)))
        need (hashes_at sent.now 0 before) marks.new needs.new fresh.new result }
{
    if !radio.limited {
        return carried;
    }
    let body = carried.body;
    if body.document {
        return carried;
    }
    pick_list(
        radio.budget,
        table,
        index,
        n,
        row_sizes,
        pick,
        sent,
        before,
        asked,
        marks,
        needs,
        fresh,
    )
}

// Whether nothing goes: no hash, by a pick that is accepted or without one.
pub fn nothing_goes(picked: Result<(), usize>, hashes: usize) -> bool
    ensures { result ≡ (is_fine picked && eqb hashes 0) }
{
    picked.is_ok() && hashes == 0
}
