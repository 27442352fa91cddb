// A plan with a setting of a list.
ghost use Rattle.session_check.specs.SessionGood.{lent_of};
ghost use Rattle.session.specs.PlanCall.{plan_settled, buffers_of};
ghost use Rattle.call_words.specs.SessionWords.{session_of};
ghost use Rattle.plan_calls.specs.PlanWords.{PlanAnswered};

use crate::answer::{planned_session, planned_words};
use call_words::words::session_of;
use pick::radio::Radio;
use settings::find::setting_at;

// Plans as bt_plan does, with the filter that the settings list in `settings` gives `station` at `version`, as bt_setting_at answers it. A bad list is
// refusal 14 and its first bad record, behind the refusals of session and tables.
#[unsafe(no_mangle)]
pub extern "C" fn bt_plan_settled(
    settings: &[u8],
    station: u64,
    version: u64,
    session: &mut [u64; 16],
    shared: &[u8],
    last_sent: &mut [u8],
    their_heads: &[u8],
    their_need: &[u8],
    haves: &[u64],
    bytes: &[u8],
    sent: &mut [u8],
    table: &[u8],
    index: &[u8],
    waiting: &[u8],
    heads: &mut [u8],
    need: &mut [u8],
    have: &mut [u8],
    list: &mut [u8],
    answer: &mut [u64; 16],
)
    ensures { PlanAnswered (plan_settled settings.now station version (session_of session.old)
        (lent_of shared.now last_sent.old their_heads.now their_need.now haves.now
        bytes.now sent.old)
        table.now index.now waiting.now)
        session.old session.new
        (lent_of shared.now last_sent.old their_heads.now their_need.now haves.now
        bytes.now sent.old)
        (lent_of shared.now last_sent.new their_heads.now their_need.now haves.now
        bytes.now sent.new)
        (buffers_of heads.old need.old have.old list.old)
        (buffers_of heads.new need.new have.new list.new)
        answer.new }
{
    let planned = plan::plan::generate_sync_message(
        setting_at(settings, station, version),
        Radio {
            limited: false,
            budget: 0,
        },
        &haves[..0],
        &shared[..0],
        session_of(*session),
        table,
        index,
        waiting,
        shared,
        last_sent,
        their_heads,
        their_need,
        haves,
        bytes,
        sent,
        heads,
        need,
        have,
        list,
    );
    *session = planned_session(planned, *session);
    *answer = planned_words(planned);
}
