// The plan as it is in 01.
ghost use Rattle.bloom.specs.Filter.{default_bits, default_probes};
ghost use Rattle.session_check.specs.SessionGood.{lent_of};
ghost use Rattle.session.specs.PlanCall.{plan_with, buffers_of};
ghost use Rattle.call_words.specs.SessionWords.{session_of};
ghost use Rattle.plan_calls.specs.PlanWords.{PlanAnswered};

use crate::answer::{planned_session, planned_words};
use call_words::words::session_of;
use pick::radio::Radio;
use settings::choice::crate_choice;

// Plans what a unit says next. `session` and its seven lists, `shared` to `sent`, are lent as to bt_check_session; a message that is planned
// changes the words, `last_sent` and `sent`, and nothing else changes any of them. `table`, `index` and `waiting` are the unit's change table, its
// index and its waiting table. The message's heads, its need, what its have stands over and the hashes of its body go to the start of `heads`,
// `need`, `have` and `list`. Answer: word 0 is 0; word 1 is 0 for nothing to say, 1 for a reset, 2 for a message; words 2 to 4 are its version,
// its flags, and whether its body is the document (0 or 1); words 5 to 7 how many heads, needs and haves it has; words 8 to 14 the seven words of
// its have over `have`; word 15 how many hashes the body has.
#[unsafe(no_mangle)]
pub extern "C" fn bt_plan(
    session: &mut [u64; 16],
    shared: &[u8],
    last_sent: &mut [u8],
    their_heads: &[u8],
    their_need: &[u8],
    haves: &[u64],
    bytes: &[u8],
    sent: &mut [u8],
    table: &[u8],
    index: &[u8],
    waiting: &[u8],
    heads: &mut [u8],
    need: &mut [u8],
    have: &mut [u8],
    list: &mut [u8],
    answer: &mut [u64; 16],
)
    ensures { PlanAnswered (plan_with default_bits default_probes (session_of session.old)
        (lent_of shared.now last_sent.old their_heads.now their_need.now haves.now
        bytes.now sent.old)
        table.now index.now waiting.now)
        session.old session.new
        (lent_of shared.now last_sent.old their_heads.now their_need.now haves.now
        bytes.now sent.old)
        (lent_of shared.now last_sent.new their_heads.now their_need.now haves.now
        bytes.now sent.new)
        (buffers_of heads.old need.old have.old list.old)
        (buffers_of heads.new need.new have.new list.new)
        answer.new }
{
    let planned = plan::plan::generate_sync_message(
        Ok(crate_choice()),
        Radio {
            limited: false,
            budget: 0,
        },
        &haves[..0],
        &shared[..0],
        session_of(*session),
        table,
        index,
        waiting,
        shared,
        last_sent,
        their_heads,
        their_need,
        haves,
        bytes,
        sent,
        heads,
        need,
        have,
        list,
    );
    *session = planned_session(planned, *session);
    *answer = planned_words(planned);
}
