// The plan: what is asked for, then counted, decided, put. Every refusal is decided on the numbers of a draft, and what is put is what they count.
ghost use Rattle.std.specs.Prelude.{true, ◌≡◌, ◌+◌, ◌*◌, ◌/◌, ◌≤◌, length};
ghost use Rattle.bloom.specs.Filter.{SettingGood};
ghost use Rattle.table_index.specs.Index.{Indexed};
ghost use Rattle.session_check.specs.SessionGood.{lent_of, session_good};
ghost use Rattle.session.specs.PlanCall.{buffers_of, PlanCalled};
ghost use Rattle.rules.specs.Sizes.{sizes};
ghost use Rattle.plan_count.specs.Internal.PlanCount.{going_of, found_of};
ghost use Rattle.rules.specs.Hash.{hashes_at};
ghost use Rattle.session.specs.Plan.{body_of, plan_body};
ghost use Rattle.session_state.specs.Value.{state_of};
ghost use Rattle.table.specs.TableBytes.{rows_at};
ghost use Rattle.waiting.specs.WaitingBytes.{waiting_of};
ghost use Rattle.plan_make.specs.Internal.PlanMake.{PlanChecked, AskedCalled};

use bloom::setting::Setting;
use pick::radio::Radio;
use plan_count::count::count_plan;
use plan_decide::decide::decide;
use plan_decide::puts::puts_of;
use plan_parts::need::{Asked, asks_nothing, find_need};
use plan_put::put::{put_message, put_need, put_session};
use rules::refusal::Refusal;
use rules::sizes::{HASHES, ROWS};
use session::plan_answer::{PlanAnswer, Rooms};
use session_state::session::{Session, heard_count};
use waiting::find::ORDER_SIZE;
use waiting_missing::missing::FOUND;

// The plan but for the hashes asked for, which are put once it is known that they are: how many they are and the room for them decide with the rest.
// Nothing that is lent is written before all of that is decided.
fn plan_asked(
    setting: Setting,
    radio: Radio,
    row_sizes: &[u64],
    pick: &[u8],
    session: Session,
    table: &[u8],
    index: &[u8],
    n: usize,
    asked: Asked,
    need_room: usize,
    shared: &[u8],
    last_sent: &mut [u8],
    their_heads: &[u8],
    their_need: &[u8],
    haves: &[u64],
    have_bytes: &[u8],
    sent: &mut [u8],
    heads: &mut [u8],
    have: &mut [u8],
    list: &mut [u8],
) -> Result<PlanAnswer, Refusal>
    requires { Indexed table.now index.now n
        × (session_good session (lent_of shared.now last_sent.old their_heads.now their_need.now haves.now have_bytes.now sent.old) ≡ true)
        × SettingGood setting.bits setting.probes
        × (asked.count ≤ sizes.hashes + 1) × (length pick.now ≤ sizes.hashes * sizes.hash) }
    ensures { AskedCalled setting.bits setting.probes session (rows_at table.now 0 n)
        (going_of radio (body_of (rows_at table.now 0 n)
        (state_of session
        (lent_of shared.now last_sent.old their_heads.now their_need.now haves.now
        have_bytes.now sent.old)))
        (hashes_at pick.now 0 (length pick.now / sizes.hash)))
        (found_of radio (rows_at table.now 0 n) (body_of (rows_at table.now 0 n)
        (state_of session
        (lent_of shared.now last_sent.old their_heads.now their_need.now haves.now
        have_bytes.now sent.old)))
        row_sizes.now (hashes_at pick.now 0 (length pick.now / sizes.hash)))
        (lent_of shared.now last_sent.old their_heads.now their_need.now haves.now
        have_bytes.now sent.old)
        (lent_of shared.now last_sent.new their_heads.now their_need.now haves.now
        have_bytes.now sent.new)
        asked need_room heads.old have.old list.old heads.new have.new list.new result }
{
    let mut head_marks = [false; ROWS];
    let mut have_marks = [false; ROWS];
    let mut marks = [false; ROWS];
    let mut needs = [false; HASHES];
    let mut fresh = [false; ROWS];
    let draft = count_plan(
        radio,
        row_sizes,
        pick,
        session,
        table,
        index,
        n,
        asked,
        shared,
        last_sent,
        their_heads,
        their_need,
        haves,
        have_bytes,
        sent,
        &mut head_marks,
        &mut have_marks,
        &mut marks,
        &mut needs,
        &mut fresh,
    );
    let rooms = Rooms {
        heads: heads.len(),
        need: need_room,
        have: have.len(),
        list: list.len(),
        last_sent: last_sent.len(),
        sent: sent.len(),
    };
    let planned = decide(session, draft, setting.bits, setting.probes, rooms);
    let puts = puts_of(planned);
    let theirs = session.their_need;
    put_message(
        puts,
        setting.probes,
        table,
        index,
        n,
        &head_marks,
        &have_marks,
        &marks,
        &needs,
        their_need,
        heard_count(theirs),
        shared,
        heads,
        have,
        list,
    );
    put_session(
        puts,
        table,
        index,
        n,
        &head_marks,
        &fresh,
        session.sent_hashes,
        last_sent,
        sent,
    );
    planned
}

// The plan for a session and tables that have been checked, the waiting rows in order. What is asked for is found by its numbers, for which there is room
// only where something may be, and put last.
pub fn plan_checked(
    setting: Setting,
    radio: Radio,
    row_sizes: &[u64],
    pick: &[u8],
    session: Session,
    table: &[u8],
    index: &[u8],
    n: usize,
    waiting: &[u8],
    order: &[u8; ORDER_SIZE],
    m: usize,
    shared: &[u8],
    last_sent: &mut [u8],
    their_heads: &[u8],
    their_need: &[u8],
    haves: &[u64],
    have_bytes: &[u8],
    sent: &mut [u8],
    heads: &mut [u8],
    need: &mut [u8],
    have: &mut [u8],
    list: &mut [u8],
) -> Result<PlanAnswer, Refusal>
    requires { PlanChecked table.now index.now n waiting.now order.now m session
        (lent_of shared.now last_sent.old their_heads.now their_need.now haves.now have_bytes.now sent.old)
        × SettingGood setting.bits setting.probes × (length pick.now ≤ sizes.hashes * sizes.hash) }
    ensures { PlanCalled (plan_body setting.bits setting.probes (rows_at table.now 0 n) (waiting_of waiting.now)
        (state_of session
        (lent_of shared.now last_sent.old their_heads.now their_need.now haves.now
        have_bytes.now sent.old))
        (going_of radio (body_of (rows_at table.now 0 n)
        (state_of session
        (lent_of shared.now last_sent.old their_heads.now their_need.now haves.now
        have_bytes.now sent.old)))
        (hashes_at pick.now 0 (length pick.now / sizes.hash)))
        (found_of radio (rows_at table.now 0 n) (body_of (rows_at table.now 0 n)
        (state_of session
        (lent_of shared.now last_sent.old their_heads.now their_need.now haves.now
        have_bytes.now sent.old)))
        row_sizes.now (hashes_at pick.now 0 (length pick.now / sizes.hash))))
        (lent_of shared.now last_sent.old their_heads.now their_need.now haves.now
        have_bytes.now sent.old)
        (lent_of shared.now last_sent.new their_heads.now their_need.now haves.now
        have_bytes.now sent.new)
        (buffers_of heads.old need.old have.old list.old)
        (buffers_of heads.new need.new have.new list.new) result }
{
    let heard = session.their_heads;
    if asks_nothing(table, index, n, session.read_only, their_heads, heard) {
        let nothing = Asked {
            heads: 0,
            count: 0,
            heard: true,
        };
        return plan_asked(
            setting,
            radio,
            row_sizes,
            pick,
            session,
            table,
            index,
            n,
            nothing,
            need.len(),
            shared,
            last_sent,
            their_heads,
            their_need,
            haves,
            have_bytes,
            sent,
            heads,
            have,
            list,
        );
    }
    let mut refs = [0u32; FOUND];
    let asked = find_need(
        table,
        index,
        n,
        waiting,
        order,
        m,
        session.read_only,
        their_heads,
        heard,
        &mut refs,
    );
    let planned = plan_asked(
        setting,
        radio,
        row_sizes,
        pick,
        session,
        table,
        index,
        n,
        asked,
        need.len(),
        shared,
        last_sent,
        their_heads,
        their_need,
        haves,
        have_bytes,
        sent,
        heads,
        have,
        list,
    );
    let puts = puts_of(planned);
    put_need(puts.need, their_heads, asked.heads, waiting, &refs, need);
    planned
}
