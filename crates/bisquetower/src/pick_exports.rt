// The exported calls of the crate `pick_calls`.
ghost use Rattle.std.specs.Prelude.{◌≡◌};
ghost use Rattle.call_words.specs.Answer.{Answered};
ghost use Rattle.pick.specs.PickCalls.{check_answer, pick_output};
ghost use Rattle.pick_calls.specs.PickWords.{pick_words};

#[unsafe(no_mangle)]
pub extern "C" fn bt_pick(
    table: &[u8],
    index: &[u8],
    list: &[u8],
    sizes: &[u64],
    budget: u64,
    out: &mut [u8],
    answer: &mut [u64; 4],
)
    ensures { Answered (pick_output table.now index.now list.now sizes.now budget)
        out.old out.new answer.new }
{
    pick_calls::calls::bt_pick(table, index, list, sizes, budget, out, answer)
}

#[unsafe(no_mangle)]
pub extern "C" fn bt_check_pick(
    table: &[u8],
    index: &[u8],
    list: &[u8],
    sizes: &[u64],
    budget: u64,
    pick: &[u8],
    answer: &mut [u64; 4],
)
    ensures { answer.new ≡ pick_words (check_answer table.now index.now list.now sizes.now budget
        pick.now) }
{
    pick_calls::calls::bt_check_pick(table, index, list, sizes, budget, pick, answer)
}
