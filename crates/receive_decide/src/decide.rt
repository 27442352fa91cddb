// What is decided once everything is counted: nothing is written before.
ghost use Rattle.std.specs.Prelude.{◌≡◌, ◌≤◌};
ghost use Rattle.rules.specs.Sizes.{sizes};
ghost use Rattle.receive_decide.specs.Internal.ReceivedCounts.{SmallCounts, session_counts, counts_room, counts_decided, is_taken};

use bloom::have::HAVE_WORDS;
use rules::refusal::Refusal;
use rules::sizes::{HASH_SIZE, HASHES};
use session::receive_answer::{ReceiveAnswer, SessionRooms};
use session_state::session::Session;

// The numbers of a session after a message: how many shared heads, heads sent last and hashes sent it has, how many of the message's heads become
// the ones sent last, how many heads, needs and haves the message has, and how many bytes the haves take.
#[derive(Clone, Copy)]
pub struct ReceivedCounts {
    pub shared: usize,
    pub last_sent: usize,
    pub last_sent_from_message: usize,
    pub sent: usize,
    pub heads: usize,
    pub need: usize,
    pub haves: usize,
    pub bytes: usize,
}

// The session after a message whose flags were taken.
fn received_session(flagged: Session, d: ReceivedCounts) -> Session
    ensures { result ≡ session_counts flagged d }
{
    Session {
        shared_heads: d.shared,
        last_sent_heads: d.last_sent,
        their_heads: Some(d.heads),
        their_need: Some(d.need),
        their_have: Some(d.haves),
        sent_hashes: d.sent,
        in_flight: flagged.in_flight,
        have_responded: flagged.have_responded,
        supports_v2: flagged.supports_v2,
        supports_reset: flagged.supports_reset,
        read_only: flagged.read_only,
        peer_read_only: flagged.peer_read_only,
        needs_reset: flagged.needs_reset,
    }
}

// Whether the session's lists have room, in the order in which 7 names them; else the length that the first too short one wants.
fn counts_room(d: ReceivedCounts, r: SessionRooms) -> Result<(), usize>
    requires { (d.shared ≤ sizes.hashes) × SmallCounts d }
    ensures { result ≡ counts_room d r }
{
    let shared = HASH_SIZE * d.shared;
    if r.shared < shared {
        return Err(shared);
    }
    let last_sent = HASH_SIZE * d.last_sent;
    if r.last_sent < last_sent {
        return Err(last_sent);
    }
    let heads = HASH_SIZE * d.heads;
    if r.their_heads < heads {
        return Err(heads);
    }
    let need = HASH_SIZE * d.need;
    if r.their_need < need {
        return Err(need);
    }
    let haves = HAVE_WORDS * d.haves;
    if r.haves < haves {
        return Err(haves);
    }
    if r.bytes < d.bytes {
        return Err(d.bytes);
    }
    Ok(())
}

// Decides: 8 where changes were to be loaded and weren't, which leaves the flags taken; 4 for too many shared heads; 7.
pub fn decide(
    flagged: Session,
    failed: bool,
    d: ReceivedCounts,
    r: SessionRooms,
) -> Result<ReceiveAnswer, Refusal>
    requires { SmallCounts d }
    ensures { result ≡ counts_decided flagged failed d r }
{
    if failed {
        return Ok(ReceiveAnswer::Failed(flagged));
    }
    if HASHES < d.shared {
        return Err(Refusal::PastSize(0));
    }
    counts_room(d, r).map_err(Refusal::NoRoom)?;
    Ok(ReceiveAnswer::Took(received_session(flagged, d)))
}

// Whether the message was taken: only then anything is put.
pub fn taken(received: Result<ReceiveAnswer, Refusal>) -> bool
    ensures { result ≡ is_taken received }
{
    match received {
        Ok(ReceiveAnswer::Took(_)) => true,
        Ok(ReceiveAnswer::Failed(_)) => false,
        Err(_) => false,
    }
}
