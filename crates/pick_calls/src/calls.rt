// Calls of the crate `pick`.
ghost use Rattle.std.specs.Prelude.{◌≡◌};
ghost use Rattle.call_words.specs.Answer.{Answered};
ghost use Rattle.pick.specs.PickCalls.{check_answer, pick_output};
ghost use Rattle.pick_calls.specs.PickWords.{pick_words};

use crate::answer::pick_words;
use call_words::answer::write_words;

// Picks what goes now of the hashes in `list`, 32 bytes each, which are to be sent and weren't: writes the picked ones at the start of `out`, in table
// order. `table` is the change table and `index` its index; `sizes` has a word for each row, the bytes of its change, and what is picked has no more than
// `budget` of them together. A row goes if it still fits and each row that it depends on and that is in the list goes too. Answer: 0, the bytes written;
// or 4 and 0 or 6 and the first bad row for the table; 12 and 0 for its index; 4 and 0, or 1 and where its last hash is cut, for the list; 17 and 0 for
// sizes that aren't one a row; 7 and the bytes wanted.
#[unsafe(no_mangle)]
pub extern "C" fn bt_pick(
    table: &[u8],
    index: &[u8],
    list: &[u8],
    sizes: &[u64],
    budget: u64,
    out: &mut [u8],
    answer: &mut [u64; 4],
)
    ensures { Answered (pick_output table.now index.now list.now sizes.now budget)
        out.old out.new answer.new }
{
    *answer = write_words(pick::pick::pick(table, index, list, sizes, budget, out));
}

// Checks the hashes in `pick`, whoever picked them of those in `list`; the others are lent as for `bt_pick`. A pick may go if its hashes are rows and stand
// in the list, each once and in table order, if every row that one of them depends on and that is in the list is picked too, if their sizes sum to no more
// than `budget`, and if it isn't empty where a single hash of the list would make such a pick. Answer: four zeros; or 4 and 0 or 6 and the first bad row
// for the table; 12 and 0 for its index; 4 and 0, or 1 and where its last hash is cut, for the list, then for the pick; 17 and the place of the first
// hash that breaks a rule, counted from 0; 17 and how many hashes the pick has, for sizes that aren't one a row, for their sum, and for an empty pick.
#[unsafe(no_mangle)]
pub extern "C" fn bt_check_pick(
    table: &[u8],
    index: &[u8],
    list: &[u8],
    sizes: &[u64],
    budget: u64,
    pick: &[u8],
    answer: &mut [u64; 4],
)
    ensures { answer.new ≡ pick_words (check_answer table.now index.now list.now sizes.now budget
        pick.now) }
{
    *answer = pick_words(pick::check::check_pick(table, index, list, sizes, budget, pick));
}
