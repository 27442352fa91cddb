// Calls of the crates `session_state`, `session_check` and `session_saved`.
ghost use Rattle.std.specs.Prelude.{◌≡◌};
ghost use Rattle.session_check.specs.SessionGood.{lent_of, session_good};
ghost use Rattle.session_saved.specs.Saved.{state_output};
ghost use Rattle.session_state.specs.Counts.{fresh_counts, fresh_read_only_counts, set_read_only_counts};
ghost use Rattle.call_words.specs.Answer.{Answered};
ghost use Rattle.call_words.specs.SessionWords.{flag_of, session_words, session_of};
ghost use Rattle.state_calls.specs.StateCalls.{fresh_for, good_words, StateRead};

use crate::answer::{good_words, saved_session, saved_words};
use call_words::answer::write_words;
use call_words::words::{session_of, session_words};
use session_state::session::Session;

// The words of a session in which nothing was said yet, of a unit that takes changes or, read-only, takes none.
fn fresh_words(read_only: bool) -> [u64; 16]
    ensures { result ≡ session_words (fresh_for read_only) }
{
    if read_only {
        return session_words(Session::new_read_only());
    }
    session_words(Session::new())
}

// Writes the words of a session in which nothing was said yet.
#[unsafe(no_mangle)]
pub extern "C" fn bt_fresh(session: &mut [u64; 16])
    ensures { session.new ≡ session_words fresh_counts }
{
    *session = fresh_words(false);
}

// Writes the words of a session in which nothing was said yet, of a unit that takes no changes (read-only).
#[unsafe(no_mangle)]
pub extern "C" fn bt_fresh_read_only(session: &mut [u64; 16])
    ensures { session.new ≡ session_words fresh_read_only_counts }
{
    *session = fresh_words(true);
}

// Changes the words of a session to those that it has once read-only is switched off (`on` is 0) or on (any other number).
#[unsafe(no_mangle)]
pub extern "C" fn bt_set_read_only(session: &mut [u64; 16], on: u64)
    ensures { session.new ≡ session_words (set_read_only_counts (session_of session.old) (flag_of on)) }
{
    *session = session_words(session_of(*session).set_read_only(on != 0));
}

// Checks the sixteen words of a session in `session` and its seven lists: hashes, 32 bytes each, in `shared` (shared heads), `last_sent` (heads
// that were sent last), `their_heads`, `their_need` and `sent` (hashes that were sent); the peer's haves, records of seven words in `haves` over
// `bytes`. Answer: four zeros, or refusal 10.
#[unsafe(no_mangle)]
pub extern "C" fn bt_check_session(
    session: &[u64; 16],
    shared: &[u8],
    last_sent: &[u8],
    their_heads: &[u8],
    their_need: &[u8],
    haves: &[u64],
    bytes: &[u8],
    sent: &[u8],
    answer: &mut [u64; 4],
)
    ensures { answer.new ≡ good_words (session_good (session_of session.now) (lent_of shared.now last_sent.now
        their_heads.now their_need.now haves.now bytes.now sent.now)) }
{
    *answer = good_words(session_check::good::session_good(
        session_of(*session),
        shared,
        last_sent,
        their_heads,
        their_need,
        haves,
        bytes,
        sent,
    ));
}

// Writes a saved state at the start of `out`: the first `count` hashes of `shared`, which are the shared heads. Answer: 0, the bytes written.
#[unsafe(no_mangle)]
pub extern "C" fn bt_write_state(shared: &[u8], count: usize, out: &mut [u8], answer: &mut [u64; 4])
    ensures { Answered (state_output shared.now count) out.old out.new answer.new }
{
    *answer = write_words(session_saved::saved::encode(out, shared, count));
}

// Reads the saved state in `bytes`: its shared heads go to the start of `shared`, and `session` becomes the session that goes on from it. Answer:
// 0, how many shared heads there are.
#[unsafe(no_mangle)]
pub extern "C" fn bt_read_state(
    bytes: &[u8],
    shared: &mut [u8],
    session: &mut [u64; 16],
    answer: &mut [u64; 4],
)
    ensures { StateRead bytes.now shared.old shared.new session.old
        session.new answer.new }
{
    let loaded = session_saved::saved::decode(bytes, shared);
    *session = saved_session(loaded, *session);
    *answer = saved_words(loaded);
}
