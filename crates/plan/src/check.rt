// The tests that come before planning.
ghost use Rattle.std.specs.Prelude.{◌*◌, ◌≤◌, length};
ghost use Rattle.rules.specs.Sizes.{sizes};
ghost use Rattle.session_check.specs.SessionGood.{lent_of};
ghost use Rattle.plan.specs.Internal.PlanChecks.{ChecksMade};

use rules::refusal::Refusal;
use session_check::good::session_good;
use session_state::session::Session;
use table_check::check::check_indexed;
use waiting::check::check_in_order;

// How many rows the change table and the waiting table have; else the refusal: 10, then 4 and 6, then 12, then 4 and 9. The waiting table's check leaves
// the order in which its rows are looked up.
pub fn check_plan(
    session: Session,
    shared: &[u8],
    last_sent: &[u8],
    their_heads: &[u8],
    their_need: &[u8],
    haves: &[u64],
    have_bytes: &[u8],
    sent: &[u8],
    table: &[u8],
    index: &[u8],
    waiting: &[u8],
    order: &mut [u8],
) -> Result<(usize, usize), Refusal>
    requires { 2 * sizes.waiting_rows ≤ length order.old }
    ensures { ChecksMade session
        (lent_of shared.now last_sent.now their_heads.now their_need.now haves.now
        have_bytes.now sent.now)
        table.now index.now waiting.now order.new result }
{
    if !session_good(
        session,
        shared,
        last_sent,
        their_heads,
        their_need,
        haves,
        have_bytes,
        sent,
    ) {
        return Err(Refusal::BadNumbers);
    }
    let n = check_indexed(table, index)?;
    let m = check_in_order(table, index, n, waiting, order)?;
    Ok((n, m))
}
