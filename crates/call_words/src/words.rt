// A session as sixteen words, which is how exported calls are lent it.
ghost use Rattle.std.specs.Prelude.{◌≡◌};
ghost use Rattle.call_words.specs.SessionWords.{heard_present, heard_of, session_words, session_of};

use session_state::session::{Session, heard_count};

// 1 for a list that is there.
fn heard_present(heard: Option<usize>) -> u64
    ensures { result ≡ heard_present heard }
{
    u64::from(heard.is_some())
}

fn heard_of(present: u64, count: u64) -> Option<usize>
    ensures { result ≡ heard_of present count }
{
    if present == 0 {
        return None;
    }
    Some(count as usize)
}

pub fn session_words(session: Session) -> [u64; 16]
    ensures { result ≡ session_words session }
{
    let heads = session.their_heads;
    let need = session.their_need;
    let have = session.their_have;
    [
        session.shared_heads as u64,
        session.last_sent_heads as u64,
        heard_present(heads),
        heard_count(heads) as u64,
        heard_present(need),
        heard_count(need) as u64,
        heard_present(have),
        heard_count(have) as u64,
        session.sent_hashes as u64,
        session.in_flight as u64,
        session.have_responded as u64,
        session.supports_v2 as u64,
        session.supports_reset as u64,
        session.read_only as u64,
        session.peer_read_only as u64,
        session.needs_reset as u64,
    ]
}

// A flag's word other than 0 is yes, and the count of an absent list is ignored: any words are a session.
pub fn session_of(words: [u64; 16]) -> Session
    ensures { result ≡ session_of words }
{
    let heads = heard_of(words[2], words[3]);
    let need = heard_of(words[4], words[5]);
    let have = heard_of(words[6], words[7]);
    Session {
        shared_heads: words[0] as usize,
        last_sent_heads: words[1] as usize,
        their_heads: heads,
        their_need: need,
        their_have: have,
        sent_hashes: words[8] as usize,
        in_flight: words[9] != 0,
        have_responded: words[10] != 0,
        supports_v2: words[11] != 0,
        supports_reset: words[12] != 0,
        read_only: words[13] != 0,
        peer_read_only: words[14] != 0,
        needs_reset: words[15] != 0,
    }
}
