// Sessions, and read-only mode.
ghost use Rattle.std.specs.Prelude.{false, ◌≡◌};
ghost use Rattle.session_state.specs.Value.{heard_count};
ghost use Rattle.session_state.specs.Counts.{begun_counts, fresh_counts, fresh_read_only_counts, restored_counts, set_read_only_counts};

// How many were heard: none where nothing was.
pub fn heard_count(heard: Option<usize>) -> usize
    ensures { result ≡ heard_count heard }
{
    heard.unwrap_or(0)
}

#[derive(Clone, Copy)]
pub struct Session {
    // Hashes that both peers have.
    pub shared_heads: usize,
    // The heads that were sent last.
    pub last_sent_heads: usize,
    // What the peer said last, if anything: how many heads it has, hashes it needs, and haves.
    pub their_heads: Option<usize>,
    pub their_need: Option<usize>,
    pub their_have: Option<usize>,
    // Hashes sent in this session, strictly ascending.
    pub sent_hashes: usize,
    // Whether what was sent last is still unanswered.
    pub in_flight: bool,
    // Whether the peer was ever answered.
    pub have_responded: bool,
    // The peer's capabilities: messages of version 2, and resets.
    pub supports_v2: bool,
    pub supports_reset: bool,
    // Incoming changes aren't applied, here or at the peer.
    pub read_only: bool,
    pub peer_read_only: bool,
    // The next message asks the peer to forget what it sent.
    pub needs_reset: bool,
}

impl Session {
    // A session in which nothing was said, but these haves were heard.
    fn heard_only(their_have: Option<usize>) -> Session
        ensures { result ≡ begun_counts 0 their_have false false false false }
    {
        Session {
            shared_heads: 0,
            last_sent_heads: 0,
            their_heads: None,
            their_need: None,
            their_have,
            sent_hashes: 0,
            in_flight: false,
            have_responded: false,
            supports_v2: false,
            supports_reset: false,
            read_only: false,
            peer_read_only: false,
            needs_reset: false,
        }
    }

    // A session in which nothing was said yet.
    pub fn new() -> Session
        ensures { result ≡ fresh_counts }
    {
        Session::heard_only(None)
    }

    // A session in which nothing was said yet, of a unit that takes no changes.
    pub fn new_read_only() -> Session
        ensures { result ≡ fresh_read_only_counts }
    {
        let mut s = Session::new();
        s.read_only = true;
        s
    }

    // What a saved state gives: its shared heads, and haves that are present and none.
    pub fn restored(shared_heads: usize) -> Session
        ensures { result ≡ restored_counts shared_heads }
    {
        let mut s = Session::heard_only(Some(0));
        s.shared_heads = shared_heads;
        s
    }

    // Hands back the changed session. Switching on makes the next message tell the peer; switching off starts afresh and asks the peer to
    // send again what was ignored.
    pub fn set_read_only(self, read_only: bool) -> Session
        ensures { result ≡ set_read_only_counts self read_only }
    {
        let was = self.read_only;
        if read_only {
            if was {
                return self;
            }
            let mut on = self;
            on.read_only = true;
            on.in_flight = false;
            on.have_responded = false;
            return on;
        }
        if was {
            let mut off = Session::new();
            off.supports_v2 = self.supports_v2;
            off.supports_reset = self.supports_reset;
            off.needs_reset = true;
            return off;
        }
        self
    }
}
