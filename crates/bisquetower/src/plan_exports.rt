// The exported calls of the crate `plan_calls`.
ghost use Rattle.bloom.specs.Filter.{default_bits, default_probes};
ghost use Rattle.session_check.specs.SessionGood.{lent_of};
ghost use Rattle.session.specs.PlanCall.{plan_with, buffers_of, plan_picked_settled, plan_settled, plan_passed};
ghost use Rattle.call_words.specs.SessionWords.{session_of};
ghost use Rattle.plan_calls.specs.PlanWords.{PlanAnswered};

#[unsafe(no_mangle)]
pub extern "C" fn bt_plan(
    session: &mut [u64; 16],
    shared: &[u8],
    last_sent: &mut [u8],
    their_heads: &[u8],
    their_need: &[u8],
    haves: &[u64],
    bytes: &[u8],
    sent: &mut [u8],
    table: &[u8],
    index: &[u8],
    waiting: &[u8],
    heads: &mut [u8],
    need: &mut [u8],
    have: &mut [u8],
    list: &mut [u8],
    answer: &mut [u64; 16],
)
    ensures { PlanAnswered (plan_with default_bits default_probes (session_of session.old)
        (lent_of shared.now last_sent.old their_heads.now their_need.now haves.now
        bytes.now sent.old)
        table.now index.now waiting.now)
        session.old session.new
        (lent_of shared.now last_sent.old their_heads.now their_need.now haves.now
        bytes.now sent.old)
        (lent_of shared.now last_sent.new their_heads.now their_need.now haves.now
        bytes.now sent.new)
        (buffers_of heads.old need.old have.old list.old)
        (buffers_of heads.new need.new have.new list.new)
        answer.new }
{
    plan_calls::calls::bt_plan(
        session,
        shared,
        last_sent,
        their_heads,
        their_need,
        haves,
        bytes,
        sent,
        table,
        index,
        waiting,
        heads,
        need,
        have,
        list,
        answer,
    )
}

#[unsafe(no_mangle)]
pub extern "C" fn bt_plan_picked(
    settings: &[u8],
    station: u64,
    version: u64,
    sizes: &[u64],
    budget: u64,
    pick: &[u8],
    session: &mut [u64; 16],
    shared: &[u8],
    last_sent: &mut [u8],
    their_heads: &[u8],
    their_need: &[u8],
    haves: &[u64],
    bytes: &[u8],
    sent: &mut [u8],
    table: &[u8],
    index: &[u8],
    waiting: &[u8],
    heads: &mut [u8],
    need: &mut [u8],
    have: &mut [u8],
    list: &mut [u8],
    answer: &mut [u64; 16],
)
    ensures { PlanAnswered (plan_picked_settled settings.now station version sizes.now budget pick.now
        (session_of session.old)
        (lent_of shared.now last_sent.old their_heads.now their_need.now haves.now
        bytes.now sent.old)
        table.now index.now waiting.now)
        session.old session.new
        (lent_of shared.now last_sent.old their_heads.now their_need.now haves.now
        bytes.now sent.old)
        (lent_of shared.now last_sent.new their_heads.now their_need.now haves.now
        bytes.now sent.new)
        (buffers_of heads.old need.old have.old list.old)
        (buffers_of heads.new need.new have.new list.new)
        answer.new }
{
    plan_calls::plan_picked::bt_plan_picked(
        settings,
        station,
        version,
        sizes,
        budget,
        pick,
        session,
        shared,
        last_sent,
        their_heads,
        their_need,
        haves,
        bytes,
        sent,
        table,
        index,
        waiting,
        heads,
        need,
        have,
        list,
        answer,
    )
}

#[unsafe(no_mangle)]
pub extern "C" fn bt_plan_settled(
    settings: &[u8],
    station: u64,
    version: u64,
    session: &mut [u64; 16],
    shared: &[u8],
    last_sent: &mut [u8],
    their_heads: &[u8],
    their_need: &[u8],
    haves: &[u64],
    bytes: &[u8],
    sent: &mut [u8],
    table: &[u8],
    index: &[u8],
    waiting: &[u8],
    heads: &mut [u8],
    need: &mut [u8],
    have: &mut [u8],
    list: &mut [u8],
    answer: &mut [u64; 16],
)
    ensures { PlanAnswered (plan_settled settings.now station version (session_of session.old)
        (lent_of shared.now last_sent.old their_heads.now their_need.now haves.now
        bytes.now sent.old)
        table.now index.now waiting.now)
        session.old session.new
        (lent_of shared.now last_sent.old their_heads.now their_need.now haves.now
        bytes.now sent.old)
        (lent_of shared.now last_sent.new their_heads.now their_need.now haves.now
        bytes.now sent.new)
        (buffers_of heads.old need.old have.old list.old)
        (buffers_of heads.new need.new have.new list.new)
        answer.new }
{
    plan_calls::plan_settled::bt_plan_settled(
        settings,
        station,
        version,
        session,
        shared,
        last_sent,
        their_heads,
        their_need,
        haves,
        bytes,
        sent,
        table,
        index,
        waiting,
        heads,
        need,
        have,
        list,
        answer,
    )
}

#[unsafe(no_mangle)]
pub extern "C" fn bt_plan_with(
    bits: u64,
    probes: u64,
    session: &mut [u64; 16],
    shared: &[u8],
    last_sent: &mut [u8],
    their_heads: &[u8],
    their_need: &[u8],
    haves: &[u64],
    bytes: &[u8],
    sent: &mut [u8],
    table: &[u8],
    index: &[u8],
    waiting: &[u8],
    heads: &mut [u8],
    need: &mut [u8],
    have: &mut [u8],
    list: &mut [u8],
    answer: &mut [u64; 16],
)
    ensures { PlanAnswered (plan_passed bits probes (session_of session.old)
        (lent_of shared.now last_sent.old their_heads.now their_need.now haves.now
        bytes.now sent.old)
        table.now index.now waiting.now)
        session.old session.new
        (lent_of shared.now last_sent.old their_heads.now their_need.now haves.now
        bytes.now sent.old)
        (lent_of shared.now last_sent.new their_heads.now their_need.now haves.now
        bytes.now sent.new)
        (buffers_of heads.old need.old have.old list.old)
        (buffers_of heads.new need.new have.new list.new)
        answer.new }
{
    plan_calls::plan_with::bt_plan_with(
        bits,
        probes,
        session,
        shared,
        last_sent,
        their_heads,
        their_need,
        haves,
        bytes,
        sent,
        table,
        index,
        waiting,
        heads,
        need,
        have,
        list,
        answer,
    )
}
