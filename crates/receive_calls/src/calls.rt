// The call of the crate `receive`.
ghost use Rattle.session_check.specs.SessionGood.{lent_of};
ghost use Rattle.call_words.specs.SessionWords.{flag_of};
ghost use Rattle.receive_calls.specs.ReceiveWords.{ReceiveAnswered};

use crate::answer::{received_session, received_words};
use call_words::words::session_of;

// Takes the message in `message`. `session` and its seven lists, `shared` to `sent`, are lent as to bt_check_session, and the message changes
// them. The host has loaded the message's changes before: `table` and `index` are the change table and its index after loading, `before` is how
// many rows the table had before it, and `loaded` is 0 where loading failed, else any other number. Answer: four zeros. After refusal 8, for a
// failed load, the words have the message's flags and nothing in flight; any other refusal leaves all as it was.
#[unsafe(no_mangle)]
pub extern "C" fn bt_receive(
    session: &mut [u64; 16],
    shared: &mut [u8],
    last_sent: &mut [u8],
    their_heads: &mut [u8],
    their_need: &mut [u8],
    haves: &mut [u64],
    bytes: &mut [u8],
    sent: &mut [u8],
    table: &[u8],
    index: &[u8],
    before: usize,
    message: &[u8],
    loaded: u64,
    answer: &mut [u64; 4],
)
    ensures { ReceiveAnswered session.old session.new
        (lent_of shared.old last_sent.old their_heads.old their_need.old haves.old
        bytes.old sent.old)
        (lent_of shared.new last_sent.new their_heads.new their_need.new haves.new
        bytes.new sent.new)
        table.now index.now before message.now (flag_of loaded) answer.new }
{
    let received = receive::receive::receive_sync_message(
        session_of(*session),
        table,
        index,
        before,
        message,
        loaded != 0,
        shared,
        last_sent,
        their_heads,
        their_need,
        haves,
        bytes,
        sent,
    );
    *session = received_session(received, *session);
    *answer = received_words(received);
}
