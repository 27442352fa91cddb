// The exported calls of the crate `state_calls`.
ghost use Rattle.std.specs.Prelude.{◌≡◌};
ghost use Rattle.session_check.specs.SessionGood.{lent_of, session_good};
ghost use Rattle.session_saved.specs.Saved.{state_output};
ghost use Rattle.session_state.specs.Counts.{fresh_counts, fresh_read_only_counts, set_read_only_counts};
ghost use Rattle.call_words.specs.Answer.{Answered};
ghost use Rattle.call_words.specs.SessionWords.{flag_of, session_words, session_of};
ghost use Rattle.state_calls.specs.StateCalls.{good_words, StateRead};

#[unsafe(no_mangle)]
pub extern "C" fn bt_fresh(session: &mut [u64; 16])
    ensures { session.new ≡ session_words fresh_counts }
{
    state_calls::calls::bt_fresh(session)
}

#[unsafe(no_mangle)]
pub extern "C" fn bt_fresh_read_only(session: &mut [u64; 16])
    ensures { session.new ≡ session_words fresh_read_only_counts }
{
    state_calls::calls::bt_fresh_read_only(session)
}

#[unsafe(no_mangle)]
pub extern "C" fn bt_set_read_only(session: &mut [u64; 16], on: u64)
    ensures { session.new ≡ session_words (set_read_only_counts (session_of session.old) (flag_of on)) }
{
    state_calls::calls::bt_set_read_only(session, on)
}

#[unsafe(no_mangle)]
pub extern "C" fn bt_check_session(
    session: &[u64; 16],
    shared: &[u8],
    last_sent: &[u8],
    their_heads: &[u8],
    their_need: &[u8],
    haves: &[u64],
    bytes: &[u8],
    sent: &[u8],
    answer: &mut [u64; 4],
)
    ensures { answer.new ≡ good_words (session_good (session_of session.now) (lent_of shared.now last_sent.now
        their_heads.now their_need.now haves.now bytes.now sent.now)) }
{
    state_calls::calls::bt_check_session(
        session,
        shared,
        last_sent,
        their_heads,
        their_need,
        haves,
        bytes,
        sent,
        answer,
    )
}

#[unsafe(no_mangle)]
pub extern "C" fn bt_write_state(shared: &[u8], count: usize, out: &mut [u8], answer: &mut [u64; 4])
    ensures { Answered (state_output shared.now count) out.old out.new answer.new }
{
    state_calls::calls::bt_write_state(shared, count, out, answer)
}

#[unsafe(no_mangle)]
pub extern "C" fn bt_read_state(
    bytes: &[u8],
    shared: &mut [u8],
    session: &mut [u64; 16],
    answer: &mut [u64; 4],
)
    ensures { StateRead bytes.now shared.old shared.new session.old
        session.new answer.new }
{
    state_calls::calls::bt_read_state(bytes, shared, session, answer)
}
