// What receiving answers.
use session_state::session::Session;

// What is answered where nothing but loading is refused: after any other refusal the session stays as it was.
#[derive(Clone, Copy)]
pub enum ReceiveAnswer {
    // The session after the message.
    Took(Session),
    // Loading failed, which is refusal 8: the session with what every message does to it.
    Failed(Session),
}

// The lengths of the session's lists that are lent: bytes, and words for the records of haves.
#[derive(Clone, Copy)]
pub struct SessionRooms {
    pub shared: usize,
    pub last_sent: usize,
    pub their_heads: usize,
    pub their_need: usize,
    pub haves: usize,
    pub bytes: usize,
}
