// The exported calls of the crate `receive_calls`.
ghost use Rattle.session_check.specs.SessionGood.{lent_of};
ghost use Rattle.call_words.specs.SessionWords.{flag_of};
ghost use Rattle.receive_calls.specs.ReceiveWords.{ReceiveAnswered};

#[unsafe(no_mangle)]
pub extern "C" fn bt_receive(
    session: &mut [u64; 16],
    shared: &mut [u8],
    last_sent: &mut [u8],
    their_heads: &mut [u8],
    their_need: &mut [u8],
    haves: &mut [u64],
    bytes: &mut [u8],
    sent: &mut [u8],
    table: &[u8],
    index: &[u8],
    before: usize,
    message: &[u8],
    loaded: u64,
    answer: &mut [u64; 4],
)
    ensures { ReceiveAnswered session.old session.new
        (lent_of shared.old last_sent.old their_heads.old their_need.old haves.old
        bytes.old sent.old)
        (lent_of shared.new last_sent.new their_heads.new their_need.new haves.new
        bytes.new sent.new)
        table.now index.now before message.now (flag_of loaded) answer.new }
{
    receive_calls::calls::bt_receive(
        session,
        shared,
        last_sent,
        their_heads,
        their_need,
        haves,
        bytes,
        sent,
        table,
        index,
        before,
        message,
        loaded,
        answer,
    )
}
