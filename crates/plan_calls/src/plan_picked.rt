// A plan with a pick.
ghost use Rattle.session_check.specs.SessionGood.{lent_of};
ghost use Rattle.session.specs.PlanCall.{plan_picked_settled, buffers_of};
ghost use Rattle.call_words.specs.SessionWords.{session_of};
ghost use Rattle.plan_calls.specs.PlanWords.{PlanAnswered};

use crate::answer::{planned_session, planned_words};
use call_words::words::session_of;
use pick::radio::Radio;
use settings::find::setting_at;

// Plans as bt_plan_settled does, with the pick in `pick` in the place of the hashes to send: 32 bytes each, of those that bt_offer gives, in table order,
// each once, every dependency that is itself among them with it. `sizes` has the size of each row's change in bytes, and the picked ones may have `budget`
// bytes together. Only picked hashes join the hashes sent. A body that is the document goes whole, and no pick is looked at. A pick that isn't accepted is
// refusal 17 and the place of its first hash that breaks a rule, or how many hashes it has where the sizes aren't one a row, their sum is past the budget,
// or it is empty and some hash could go by itself. With no settings list, `settings` of no bytes, the filter is as bt_plan has it.
#[unsafe(no_mangle)]
pub extern "C" fn bt_plan_picked(
    settings: &[u8],
    station: u64,
    version: u64,
    sizes: &[u64],
    budget: u64,
    pick: &[u8],
    session: &mut [u64; 16],
    shared: &[u8],
    last_sent: &mut [u8],
    their_heads: &[u8],
    their_need: &[u8],
    haves: &[u64],
    bytes: &[u8],
    sent: &mut [u8],
    table: &[u8],
    index: &[u8],
    waiting: &[u8],
    heads: &mut [u8],
    need: &mut [u8],
    have: &mut [u8],
    list: &mut [u8],
    answer: &mut [u64; 16],
)
    ensures { PlanAnswered (plan_picked_settled settings.now station version sizes.now budget pick.now
        (session_of session.old)
        (lent_of shared.now last_sent.old their_heads.now their_need.now haves.now
        bytes.now sent.old)
        table.now index.now waiting.now)
        session.old session.new
        (lent_of shared.now last_sent.old their_heads.now their_need.now haves.now
        bytes.now sent.old)
        (lent_of shared.now last_sent.new their_heads.now their_need.now haves.now
        bytes.now sent.new)
        (buffers_of heads.old need.old have.old list.old)
        (buffers_of heads.new need.new have.new list.new)
        answer.new }
{
    let planned = plan::plan::generate_sync_message(
        setting_at(settings, station, version),
        Radio {
            limited: true,
            budget,
        },
        sizes,
        pick,
        session_of(*session),
        table,
        index,
        waiting,
        shared,
        last_sent,
        their_heads,
        their_need,
        haves,
        bytes,
        sent,
        heads,
        need,
        have,
        list,
    );
    *session = planned_session(planned, *session);
    *answer = planned_words(planned);
}
