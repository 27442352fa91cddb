// What planning answers.
use bloom::have::FilterNumbers;
use message::flags::MessageFlags;
use message::version::MessageVersion;
use session_state::session::Session;

// A message to be written: its version and flags, how many hashes its lists have, and the numbers of its have, if it has one. The have's last-sync
// hashes stand at the start of its bytes.
#[derive(Clone, Copy)]
pub struct Stated {
    pub version: MessageVersion,
    pub flags: MessageFlags,
    pub document: bool,
    pub heads: usize,
    pub need: usize,
    pub haves: usize,
    pub syncs: usize,
    pub filter: FilterNumbers,
    pub hashes: usize,
}

// What is answered where nothing is refused.
#[derive(Clone, Copy)]
pub enum PlanAnswer {
    // There is nothing to say.
    Silent,
    // The peer is to start anew; the session stays as it was.
    Reset(Stated),
    // The message, and the session after it.
    Says { stated: Stated, session: Session },
}

// The lengths of the buffers that are lent for what is said, and for the session's lists that change.
#[derive(Clone, Copy)]
pub struct Rooms {
    pub heads: usize,
    pub need: usize,
    pub have: usize,
    pub list: usize,
    pub last_sent: usize,
    pub sent: usize,
}
