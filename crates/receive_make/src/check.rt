// The tests that come before a message is taken, and the message read.
ghost use Rattle.std.specs.Prelude.{◌≡◌};
ghost use Rattle.session_check.specs.SessionGood.{lent_of};
ghost use Rattle.receive_make.specs.Internal.ReceiveChecks.{checked};

use message_read::parse::{Places, parse};
use rules::refusal::Refusal;
use session_check::good::session_good;
use session_state::session::Session;
use table_check::check::check_indexed;

// The rows of the table and the places of the message; else the refusal: 10, then 4 and 6, then 12, then 11, then the message from its first byte.
pub fn check_receive(
    session: Session,
    shared: &[u8],
    last_sent: &[u8],
    their_heads: &[u8],
    their_need: &[u8],
    haves: &[u64],
    have_bytes: &[u8],
    sent: &[u8],
    table: &[u8],
    index: &[u8],
    before: usize,
    message: &[u8],
) -> Result<(usize, Places), Refusal>
    ensures { result ≡ checked session (lent_of shared.now last_sent.now their_heads.now their_need.now
        haves.now have_bytes.now sent.now) table.now index.now before message.now }
{
    if !session_good(
        session,
        shared,
        last_sent,
        their_heads,
        their_need,
        haves,
        have_bytes,
        sent,
    ) {
        return Err(Refusal::BadNumbers);
    }
    let n = check_indexed(table, index)?;
    if n < before {
        return Err(Refusal::BadRowsBefore);
    }
    Ok((n, parse(message)?))
}
