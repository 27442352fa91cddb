// The exported calls of the crate `offer_calls`.
ghost use Rattle.call_words.specs.SessionWords.{session_of};
ghost use Rattle.plan_offer.specs.OfferCall.{offer_of};
ghost use Rattle.session_check.specs.SessionGood.{lent_of};
ghost use Rattle.offer_calls.specs.OfferWords.{OfferAnswered};

#[unsafe(no_mangle)]
pub extern "C" fn bt_offer(
    session: &[u64; 16],
    shared: &[u8],
    last_sent: &[u8],
    their_heads: &[u8],
    their_need: &[u8],
    haves: &[u64],
    bytes: &[u8],
    sent: &[u8],
    table: &[u8],
    index: &[u8],
    list: &mut [u8],
    answer: &mut [u64; 4],
)
    ensures { OfferAnswered (offer_of (session_of session.now)
        (lent_of shared.now last_sent.now their_heads.now their_need.now haves.now
        bytes.now sent.now)
        table.now index.now)
        list.old list.new answer.new }
{
    offer_calls::calls::bt_offer(
        session,
        shared,
        last_sent,
        their_heads,
        their_need,
        haves,
        bytes,
        sent,
        table,
        index,
        list,
        answer,
    )
}
