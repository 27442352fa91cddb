// Answers of receiving as words, and the session's words that they leave.
ghost use Rattle.std.specs.Prelude.{◌≡◌};
ghost use Rattle.receive_calls.specs.ReceiveWords.{received_words, received_session};

use call_words::answer::refusal_words;
use call_words::words::session_words;
use rules::refusal::Refusal;
use session::receive_answer::ReceiveAnswer;

pub fn received_words(received: Result<ReceiveAnswer, Refusal>) -> [u64; 4]
    ensures { result ≡ received_words received }
{
    match received {
        Ok(ReceiveAnswer::Took(_)) => [0, 0, 0, 0],
        Ok(ReceiveAnswer::Failed(_)) => refusal_words(Refusal::LoadFailed),
        Err(r) => refusal_words(r),
    }
}

// The session's words: they stay as they stood after any refusal but a failed load.
pub fn received_session(received: Result<ReceiveAnswer, Refusal>, before: [u64; 16]) -> [u64; 16]
    ensures { result ≡ received_session received before }
{
    match received {
        Ok(ReceiveAnswer::Took(session)) => session_words(session),
        Ok(ReceiveAnswer::Failed(session)) => session_words(session),
        Err(_) => before,
    }
}
