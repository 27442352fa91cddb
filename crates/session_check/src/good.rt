// The whole session, and the haves that are kept in it.
ghost use Rattle.std.specs.Prelude.{◌≡◌};
ghost use Rattle.session_check.specs.SessionGood.{haves_good, lent_of, session_good};

use crate::list::{heard_good, list_good, sent_good};
use bloom::have::{HAVE_WORDS, passed_few, passed_good};
use rules::sizes::HAVES;
use session_state::session::Session;

// Whether the peer's haves, which may be absent, are haves over the lent bytes.
pub fn haves_good(bytes: &[u8], haves: &[u64], heard: Option<usize>) -> bool
    ensures { result ≡ haves_good bytes.now haves.now heard }
{
    let Some(count) = heard else {
        return true;
    };
    if HAVES < count {
        return false;
    }
    if haves.len() < HAVE_WORDS * count {
        return false;
    }
    let kept = &haves[..HAVE_WORDS * count];
    if !passed_good(bytes, kept) {
        return false;
    }
    passed_few(kept)
}

// Whether a session's counts are good for the lists that are lent with it.
pub fn session_good(
    session: Session,
    shared: &[u8],
    last_sent: &[u8],
    their_heads: &[u8],
    their_need: &[u8],
    haves: &[u64],
    bytes: &[u8],
    sent: &[u8],
) -> bool
    ensures { result ≡ session_good session (lent_of shared.now last_sent.now their_heads.now their_need.now
        haves.now bytes.now sent.now) }
{
    if !list_good(shared, session.shared_heads) {
        return false;
    }
    if !list_good(last_sent, session.last_sent_heads) {
        return false;
    }
    if !heard_good(their_heads, session.their_heads) {
        return false;
    }
    if !heard_good(their_need, session.their_need) {
        return false;
    }
    if !haves_good(bytes, haves, session.their_have) {
        return false;
    }
    if !sent_good(sent, session.sent_hashes) {
        return false;
    }
    true
}
