// A plan with bits and probes that are passed.
ghost use Rattle.session_check.specs.SessionGood.{lent_of};
ghost use Rattle.session.specs.PlanCall.{plan_passed, buffers_of};
ghost use Rattle.call_words.specs.SessionWords.{session_of};
ghost use Rattle.plan_calls.specs.PlanWords.{PlanAnswered};

use crate::answer::{planned_session, planned_words};
use bloom::setting::pair_good;
use call_words::words::session_of;
use pick::radio::Radio;
use rules::refusal::Refusal;
use settings::choice::Choice;

// Plans as bt_plan does, with a filter of `bits` bits an entry, 1 to 32, and `probes` probes, 64 at the most. Other numbers are refusal 10, before all
// else.
#[unsafe(no_mangle)]
pub extern "C" fn bt_plan_with(
    bits: u64,
    probes: u64,
    session: &mut [u64; 16],
    shared: &[u8],
    last_sent: &mut [u8],
    their_heads: &[u8],
    their_need: &[u8],
    haves: &[u64],
    bytes: &[u8],
    sent: &mut [u8],
    table: &[u8],
    index: &[u8],
    waiting: &[u8],
    heads: &mut [u8],
    need: &mut [u8],
    have: &mut [u8],
    list: &mut [u8],
    answer: &mut [u64; 16],
)
    ensures { PlanAnswered (plan_passed bits probes (session_of session.old)
        (lent_of shared.now last_sent.old their_heads.now their_need.now haves.now
        bytes.now sent.old)
        table.now index.now waiting.now)
        session.old session.new
        (lent_of shared.now last_sent.old their_heads.now their_need.now haves.now
        bytes.now sent.old)
        (lent_of shared.now last_sent.new their_heads.now their_need.now haves.now
        bytes.now sent.new)
        (buffers_of heads.old need.old have.old list.old)
        (buffers_of heads.new need.new have.new list.new)
        answer.new }
{
    if !pair_good(bits, probes) {
        *answer = planned_words(Err(Refusal::BadNumbers));
        return;
    }
    let choice = Choice {
        bits,
        probes,
        read_only: 0,
    };
    let planned = plan::plan::generate_sync_message(
        Ok(choice),
        Radio {
            limited: false,
            budget: 0,
        },
        &haves[..0],
        &shared[..0],
        session_of(*session),
        table,
        index,
        waiting,
        shared,
        last_sent,
        their_heads,
        their_need,
        haves,
        bytes,
        sent,
        heads,
        need,
        have,
        list,
    );
    *session = planned_session(planned, *session);
    *answer = planned_words(planned);
}
