// The plan: checked, counted, put.
ghost use Rattle.session_check.specs.SessionGood.{lent_of};
ghost use Rattle.session.specs.PlanCall.{plan_after, buffers_of, PlanCalled};
ghost use Rattle.session_state.specs.Value.{state_of};
ghost use Rattle.table.specs.TableBytes.{table_of};
ghost use Rattle.waiting.specs.WaitingBytes.{waiting_of};
ghost use Rattle.plan.specs.Internal.PlanChecks.{AnswerGood, plan_over};

use crate::check::check_plan;
use bloom::setting::Setting;
use pick::radio::Radio;
use plan_make::make::plan_checked;
use rules::passed::passed_hashes;
use rules::refusal::Refusal;
use session::plan_answer::PlanAnswer;
use session_state::session::Session;
use settings::choice::Choice;
use waiting::find::ORDER_SIZE;

// What a unit says next, with the setting that was answered, and with a pick where the radio is limited. The refusals of the setting and of the pick wait
// until the session and the tables are found good.
pub fn generate_sync_message(
    setting: Result<Choice, Refusal>,
    radio: Radio,
    row_sizes: &[u64],
    pick: &[u8],
    session: Session,
    table: &[u8],
    index: &[u8],
    waiting: &[u8],
    shared: &[u8],
    last_sent: &mut [u8],
    their_heads: &[u8],
    their_need: &[u8],
    haves: &[u64],
    have_bytes: &[u8],
    sent: &mut [u8],
    heads: &mut [u8],
    need: &mut [u8],
    have: &mut [u8],
    list: &mut [u8],
) -> Result<PlanAnswer, Refusal>
    requires { AnswerGood setting }
    ensures { PlanCalled (plan_after session
        (lent_of shared.now last_sent.old their_heads.now their_need.now haves.now
        have_bytes.now sent.old)
        table.now index.now waiting.now
        (plan_over setting radio row_sizes.now pick.now (table_of table.now) (waiting_of waiting.now)
        (state_of session
        (lent_of shared.now last_sent.old their_heads.now their_need.now haves.now
        have_bytes.now sent.old))))
        (lent_of shared.now last_sent.old their_heads.now their_need.now haves.now
        have_bytes.now sent.old)
        (lent_of shared.now last_sent.new their_heads.now their_need.now haves.now
        have_bytes.now sent.new)
        (buffers_of heads.old need.old have.old list.old)
        (buffers_of heads.new need.new have.new list.new) result }
{
    let mut order = [0u8; ORDER_SIZE];
    let (rows, waiting_rows) = check_plan(
        session,
        shared,
        last_sent,
        their_heads,
        their_need,
        haves,
        have_bytes,
        sent,
        table,
        index,
        waiting,
        &mut order,
    )?;
    // Not by `?`: the edit bad_list_as_setting puts another refusal into this arm.
    let choice = match setting {
        Ok(choice) => choice,
        Err(refusal) => return Err(refusal),
    };
    passed_hashes(pick)?;
    plan_checked(
        Setting {
            bits: choice.bits,
            probes: choice.probes,
        },
        radio,
        row_sizes,
        pick,
        session,
        table,
        index,
        rows,
        waiting,
        &order,
        waiting_rows,
        shared,
        last_sent,
        their_heads,
        their_need,
        haves,
        have_bytes,
        sent,
        heads,
        need,
        have,
        list,
    )
}
