// An answer as words.
ghost use Rattle.std.specs.Prelude.{◌≡◌};
ghost use Rattle.state_calls.specs.StateCalls.{good_words, saved_words, saved_session};

use call_words::answer::refusal_words;
use call_words::words::session_words;
use rules::refusal::Refusal;
use session_state::session::Session;

pub fn good_words(good: bool) -> [u64; 4]
    ensures { result ≡ good_words good }
{
    if good {
        return [0, 0, 0, 0];
    }
    refusal_words(Refusal::BadNumbers)
}

pub fn saved_words(l: Result<Session, Refusal>) -> [u64; 4]
    ensures { result ≡ saved_words l }
{
    match l {
        Ok(session) => [0, session.shared_heads as u64, 0, 0],
        Err(r) => refusal_words(r),
    }
}

// The session that was read, else the one that was lent.
pub fn saved_session(loaded: Result<Session, Refusal>, before: [u64; 16]) -> [u64; 16]
    ensures { result ≡ saved_session loaded before }
{
    match loaded {
        Ok(session) => session_words(session),
        Err(_) => before,
    }
}
