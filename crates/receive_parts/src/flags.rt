// What every message does to a session, even one whose changes don't load.
ghost use Rattle.std.specs.Prelude.{◌≡◌};
ghost use Rattle.receive_parts.specs.Internal.ReceiveParts.{flagged_counts};

use message::flags::MessageFlags;
use session_state::session::Session;

// The session with nothing in flight, and with what a section says: that the peer knows V2, whether it understands resets and takes no changes, and
// whether what was sent is to be forgotten.
pub fn take_flags(session: Session, flags: Option<MessageFlags>) -> Session
    ensures { result ≡ flagged_counts flags session }
{
    let mut next = session;
    next.in_flight = false;
    match flags {
        None => next,
        Some(f) => {
            next.supports_v2 = true;
            next.supports_reset = f.supports_reset();
            next.peer_read_only = f.read_only();
            if f.wants_reset() {
                next.sent_hashes = 0;
            }
            next
        }
    }
}
