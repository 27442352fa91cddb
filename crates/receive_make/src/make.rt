// The numbers of a session after a message.
ghost use Rattle.std.specs.Prelude.{Ok, not, ◌&&◌, ◌≡◌, ◌+◌, ◌*◌, ◌≤◌, ltb, length};
ghost use Rattle.message_read.specs.MessageRead.{message_at, decoded_of};
ghost use Rattle.table_graph.specs.Graph.{heads};
ghost use Rattle.table_index.specs.Index.{Indexed};
ghost use Rattle.rules.specs.Hash.{hashes_at};
ghost use Rattle.rules.specs.Sizes.{sizes};
ghost use Rattle.table.specs.TableBytes.{rows_at};
ghost use Rattle.receive_make.specs.Internal.ReceiveMake.{words_room, told_heads, last_sent_count, kept_hashes, Prepared, Makes, WordsMade, CountsMade};

use bloom::have::HAVE_WORDS;
use message_items::haves::put_haves;
use message_read::parse::Places;
use receive_decide::decide::ReceivedCounts;
use receive_haves::haves::laid_size;
use receive_parts::heads::heads_before;
use receive_parts::left::count_left;
use receive_shared::shared::count_shared;
use session_state::session::Session;

// Whether a message's changes are loaded: it has some, and this unit takes them.
pub fn loads_changes(chunks: usize, read_only: bool) -> bool
    ensures { result ≡ (ltb 0 chunks && not read_only) }
{
    0 < chunks && !read_only
}

// Whether loading was due and failed.
pub fn load_failed(loads: bool, loaded: bool) -> bool
    ensures { result ≡ (loads && not loaded) }
{
    loads && !loaded
}

// How many of a message's heads become the ones sent last: all where it brings nothing and has just the heads of before, which the peer was told
// then; else none.
fn told_heads(
    chunks: usize,
    table: &[u8],
    index: &[u8],
    n: usize,
    before: usize,
    message: &[u8],
    place: usize,
    count: usize,
) -> usize
    requires { Indexed table.now index.now n × (before ≤ n) × (place + sizes.hash * count ≤ length message.now) }
    ensures { result ≡ told_heads chunks count (hashes_at message.now place count) (heads (rows_at table.now 0 before)) }
{
    if 0 < chunks {
        return 0;
    }
    if heads_before(table, index, n, before, message, place, count) {
        return count;
    }
    0
}

// How many heads were sent last, after a message of `heads` heads: none where the peer has none, those that it was told, or as many as before.
fn last_sent_after(heads: usize, told: usize, before: usize) -> usize
    ensures { result ≡ last_sent_count heads told before }
{
    if heads == 0 {
        return 0;
    }
    if 0 < told {
        return told;
    }
    before
}

// How many sent hashes are gone through: none where the peer has no heads, as it has lost everything.
pub fn kept_hashes(heads: usize, sent: usize) -> usize
    ensures { result ≡ kept_hashes heads sent }
{
    if heads == 0 {
        return 0;
    }
    sent
}

// Puts the words of a message's haves at the start of the list, and returns how many bytes the haves take, laid out.
fn make_words(message: &[u8], places: Places, words: &mut [u64]) -> usize
    requires { (decoded_of (message_at message.now) ≡ Ok places) × (length words.old ≡ words_room) }
    ensures { WordsMade message.now places words.new result }
{
    let haves = places.haves;
    put_haves(message, haves.start, haves.count, words);
    laid_size(message, &words[..HAVE_WORDS * haves.count])
}

// Counts all parts of the session after a message, its flags being taken and what lies below its heads marked, and puts the words of its haves into a
// list of the caller's own. Nothing of the session is written.
pub fn count_received(
    flagged: Session,
    loads: bool,
    all: bool,
    marks: &[bool],
    table: &[u8],
    index: &[u8],
    n: usize,
    before: usize,
    message: &[u8],
    places: Places,
    shared: &[u8],
    sent: &[u8],
    words: &mut [u64],
) -> ReceivedCounts
    requires { Makes flagged table.now index.now n before message.now places shared.now sent.now
        × Prepared table.now n message.now places flagged.sent_hashes marks.now all
        × (length words.old ≡ words_room) }
    ensures { CountsMade all loads flagged table.now n before message.now places shared.now sent.now
        words.new result }
{
    let heads = places.heads;
    let need = places.need;
    let haves = places.haves;
    let chunks = places.chunks;
    let bytes = make_words(message, places, words);
    let count = count_shared(
        all,
        loads,
        table,
        index,
        n,
        before,
        shared,
        flagged.shared_heads,
        message,
        heads.start,
        heads.count,
    );
    let keeps = kept_hashes(heads.count, flagged.sent_hashes);
    let left = count_left(table, index, n, marks, sent, keeps);
    let told = told_heads(
        chunks.count,
        table,
        index,
        n,
        before,
        message,
        heads.start,
        heads.count,
    );
    let last_sent = last_sent_after(heads.count, told, flagged.last_sent_heads);
    ReceivedCounts {
        shared: count,
        last_sent,
        last_sent_from_message: told,
        sent: left,
        heads: heads.count,
        need: need.count,
        haves: haves.count,
        bytes,
    }
}
