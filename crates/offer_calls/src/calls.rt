// What a pick is made of.
ghost use Rattle.call_words.specs.SessionWords.{session_of};
ghost use Rattle.plan_offer.specs.OfferCall.{offer_of};
ghost use Rattle.session_check.specs.SessionGood.{lent_of};
ghost use Rattle.offer_calls.specs.OfferWords.{OfferAnswered};

use crate::answer::offer_words;
use call_words::words::session_of;

// Writes the hashes of the changes that a message would carry now at the start of `list`, 32 bytes each, so that a host can pick some of them. `session`
// and its seven lists, `shared` to `sent`, are lent as to bt_check_session, and nothing changes any of them. `table` and `index` are the unit's change
// table and its index. The hashes are those that the peer asks for or lacks, less those that were sent in the session; or the hashes of all rows, where
// the message would carry the document. Answer: 0, whether it is the document (0 or 1), the number of hashes.
#[unsafe(no_mangle)]
pub extern "C" fn bt_offer(
    session: &[u64; 16],
    shared: &[u8],
    last_sent: &[u8],
    their_heads: &[u8],
    their_need: &[u8],
    haves: &[u64],
    bytes: &[u8],
    sent: &[u8],
    table: &[u8],
    index: &[u8],
    list: &mut [u8],
    answer: &mut [u64; 4],
)
    ensures { OfferAnswered (offer_of (session_of session.now)
        (lent_of shared.now last_sent.now their_heads.now their_need.now haves.now
        bytes.now sent.now)
        table.now index.now)
        list.old list.new answer.new }
{
    let offered = plan_offer::offer::offer(
        session_of(*session),
        table,
        index,
        shared,
        last_sent,
        their_heads,
        their_need,
        haves,
        bytes,
        sent,
        list,
    );
    *answer = offer_words(offered);
}
