// The message received: checked, counted, decided, put.
ghost use Rattle.std.specs.Prelude.{◌≡◌};
ghost use Rattle.session_check.specs.SessionGood.{lent_of};
ghost use Rattle.receive_make.specs.Internal.ReceiveChecks.{Accepted};
ghost use Rattle.session.specs.ReceiveCall.{receive_with, ReceiveCalled};

use bloom::have::HAVE_WORDS;
use message_read::parse::Places;
use receive_decide::decide::{decide, taken};
use receive_decide::put::put_heard;
use receive_make::check::check_receive;
use receive_make::make::{count_received, kept_hashes, load_failed, loads_changes};
use receive_parts::flags::take_flags;
use receive_parts::heads::mark_known;
use receive_parts::left::trim_left;
use receive_shared::shared::put_shared;
use rules::refusal::Refusal;
use rules::sizes::{HAVES, ROWS};
use session::receive_answer::{ReceiveAnswer, SessionRooms};
use session_state::session::Session;

// Room for the records of any haves.
const RECORDS: usize = HAVE_WORDS * HAVES;

// The message taken by a session and beside a table and its index that have been checked. All is decided on numbers; what is lent is written only where
// the message is taken, each part straight into its list.
fn receive_checked(
    session: Session,
    table: &[u8],
    index: &[u8],
    n: usize,
    before: usize,
    message: &[u8],
    places: Places,
    loaded: bool,
    shared: &mut [u8],
    last_sent: &mut [u8],
    their_heads: &mut [u8],
    their_need: &mut [u8],
    haves: &mut [u64],
    have_bytes: &mut [u8],
    sent: &mut [u8],
) -> Result<ReceiveAnswer, Refusal>
    requires { Accepted session (lent_of shared.old last_sent.old their_heads.old their_need.old haves.old have_bytes.old sent.old)
        table.now index.now n before message.now places }
    ensures { ReceiveCalled (receive_with loaded before session
        (lent_of shared.old last_sent.old their_heads.old their_need.old
        haves.old have_bytes.old sent.old) table.now index.now message.now)
        (lent_of shared.old last_sent.old their_heads.old their_need.old
        haves.old have_bytes.old sent.old)
        (lent_of shared.new last_sent.new their_heads.new their_need.new
        haves.new have_bytes.new sent.new) result }
{
    let heads = places.heads;
    let need = places.need;
    let chunks = places.chunks;
    let flags = places.flags;
    let flagged = take_flags(session, flags);
    let loads = loads_changes(chunks.count, session.read_only);
    let mut marks = [false; ROWS];
    let all = mark_known(
        table,
        index,
        n,
        message,
        heads.start,
        heads.count,
        session.sent_hashes,
        &mut marks,
    );
    let mut words = [0u64; RECORDS];
    let counts = count_received(
        flagged, loads, all, &marks, table, index, n, before, message, places, shared, sent,
        &mut words,
    );
    let rooms = SessionRooms {
        shared: shared.len(),
        last_sent: last_sent.len(),
        their_heads: their_heads.len(),
        their_need: their_need.len(),
        haves: haves.len(),
        bytes: have_bytes.len(),
    };
    let received = decide(flagged, load_failed(loads, loaded), counts, rooms);
    if !taken(received) {
        return received;
    }
    put_shared(
        all,
        loads,
        table,
        index,
        n,
        before,
        shared,
        session.shared_heads,
        message,
        heads.start,
        heads.count,
    );
    put_heard(
        counts,
        message,
        heads.start,
        need.start,
        &words,
        last_sent,
        their_heads,
        their_need,
        haves,
        have_bytes,
    );
    let keeps = kept_hashes(heads.count, flagged.sent_hashes);
    trim_left(table, index, n, &marks, sent, keeps);
    received
}

// What a message does to a session. `before`: how many rows the table had before loading; `loaded`: whether loading the message's changes went well,
// which is looked at only where it has some and the session takes them.
pub fn receive_sync_message(
    session: Session,
    table: &[u8],
    index: &[u8],
    before: usize,
    message: &[u8],
    loaded: bool,
    shared: &mut [u8],
    last_sent: &mut [u8],
    their_heads: &mut [u8],
    their_need: &mut [u8],
    haves: &mut [u64],
    have_bytes: &mut [u8],
    sent: &mut [u8],
) -> Result<ReceiveAnswer, Refusal>
    ensures { ReceiveCalled (receive_with loaded before session
        (lent_of shared.old last_sent.old their_heads.old their_need.old
        haves.old have_bytes.old sent.old) table.now index.now message.now)
        (lent_of shared.old last_sent.old their_heads.old their_need.old
        haves.old have_bytes.old sent.old)
        (lent_of shared.new last_sent.new their_heads.new their_need.new
        haves.new have_bytes.new sent.new) result }
{
    let (rows, places) = check_receive(
        session,
        shared,
        last_sent,
        their_heads,
        their_need,
        haves,
        have_bytes,
        sent,
        table,
        index,
        before,
        message,
    )?;
    receive_checked(
        session,
        table,
        index,
        rows,
        before,
        message,
        places,
        loaded,
        shared,
        last_sent,
        their_heads,
        their_need,
        haves,
        have_bytes,
        sent,
    )
}
