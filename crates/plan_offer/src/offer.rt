// What a session and a table offer.
ghost use Rattle.std.specs.Prelude.{List, ℕ};
ghost use Rattle.session.specs.Plan.{body_of};
ghost use Rattle.session_check.specs.SessionGood.{lent_of};
ghost use Rattle.session_state.specs.Value.{state_of};
ghost use Rattle.table.specs.TableBytes.{rows_at};
ghost use Rattle.plan_offer.specs.Internal.OfferReady.{OfferReady};
ghost use Rattle.plan_offer.specs.OfferCall.{Offered, offer_of, OfferCalled};

use plan_parts::body::mark_body;
use plan_parts::silence::heard_none;
use rules::refusal::Refusal;
use rules::sizes::{HASH_SIZE, HASHES, ROWS};
use send::chosen::put_chosen;
use session_check::good::session_good;
use session_state::session::{Session, heard_count};
use table_check::check::check_indexed;
use table_graph::marks::mark_list;

// What is offered once the session and the table are checked: whether the body is the document, and how many hashes it has. The body is chosen as marks
// and counted, and put only where there is room for all of it. Its arrays aren't to stand on the stack while the table is checked, as they would inside
// its caller.
#[inline(never)]
fn offer_checked(
    session: Session,
    table: &[u8],
    index: &[u8],
    n: usize,
    their_need: &[u8],
    haves: &[u64],
    have_bytes: &[u8],
    sent: &[u8],
    list: &mut [u8],
) -> Result<(bool, usize), Refusal>
    requires { OfferReady table.now index.now n session their_need.now haves.now have_bytes.now sent.now }
    ensures { (shared last_sent their_heads : List ℕ) → OfferCalled
        (Offered.body (body_of (rows_at table.now 0 n) (state_of session (lent_of shared last_sent their_heads
        their_need.now haves.now have_bytes.now sent.now))))
        list.old list.new result }
{
    let heads = session.their_heads;
    let have = session.their_have;
    let need = session.their_need;
    let mut past = [false; ROWS];
    let mut marks = [false; ROWS];
    let mut needs = [false; HASHES];
    mark_list(table, index, n, sent, 0, session.sent_hashes, &mut past);
    let body = mark_body(
        table,
        index,
        n,
        session.peer_read_only,
        session.supports_v2,
        heard_none(heads),
        have_bytes,
        haves,
        have,
        their_need,
        need,
        &past,
        &mut marks,
        &mut needs,
    );
    let size = HASH_SIZE * body.hashes;
    if list.len() < size {
        return Err(Refusal::NoRoom(size));
    }
    put_chosen(
        table,
        n,
        &marks,
        their_need,
        0,
        heard_count(need),
        &needs,
        list,
    );
    Ok((body.document, body.hashes))
}

// Writes the hashes of the body that the session asks for, and answers whether it is the document and how many hashes it has; else the refusal: 10, then 4
// and 6 for the table, 12 for its index, and 7 for the list.
pub fn offer(
    session: Session,
    table: &[u8],
    index: &[u8],
    shared: &[u8],
    last_sent: &[u8],
    their_heads: &[u8],
    their_need: &[u8],
    haves: &[u64],
    have_bytes: &[u8],
    sent: &[u8],
    list: &mut [u8],
) -> Result<(bool, usize), Refusal>
    ensures { OfferCalled
        (offer_of session
        (lent_of shared.now last_sent.now their_heads.now their_need.now haves.now
        have_bytes.now sent.now)
        table.now index.now)
        list.old list.new result }
{
    if !session_good(
        session,
        shared,
        last_sent,
        their_heads,
        their_need,
        haves,
        have_bytes,
        sent,
    ) {
        return Err(Refusal::BadNumbers);
    }
    let n = check_indexed(table, index)?;
    offer_checked(
        session, table, index, n, their_need, haves, have_bytes, sent, list,
    )
}
