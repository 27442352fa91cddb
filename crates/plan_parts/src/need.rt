// What a unit asks for.
ghost use Rattle.std.specs.Prelude.{cond, true, List, [], ◌≡◌, ◌+◌, length, Ok};
ghost use Rattle.table_index.specs.Index.{Indexed};
ghost use Rattle.session_check.specs.SessionGood.{heard_good};
ghost use Rattle.rules.specs.Sizes.{sizes};
ghost use Rattle.session.specs.Plan.{heard, need_of};
ghost use Rattle.session_state.specs.Value.{heard_count, heard_hashes};
ghost use Rattle.table.specs.TableBytes.{rows_at};
ghost use Rattle.waiting.specs.Waiting.{Waiting};
ghost use Rattle.waiting.specs.WaitingBytes.{waiting_of, waiting_checked, Sorted};
ghost use Rattle.plan_parts.specs.Internal.PlanParts.{NeedFound};

use hash_lists::compare::all_held;
use session_state::session::heard_count;
use waiting::find::ORDER_SIZE;
use waiting_missing::missing::find_in_order;

// What is asked for: how many heads it is looked for from, how many hashes it is, and whether each of them is one of these heads.
#[derive(Clone, Copy)]
pub struct Asked {
    pub heads: usize,
    pub count: usize,
    pub heard: bool,
}

// How many of the heads that were heard are asked for: none by a read-only unit.
fn asked_heads(read_only: bool, heads: Option<usize>) -> usize
    ensures { result ≡ cond read_only 0 (heard_count heads) }
{
    if read_only {
        return 0;
    }
    heard_count(heads)
}

// Whether each head that is asked for is held: nothing is missing then, whatever waits, and no room is wanted for the numbers of what is.
pub fn asks_nothing(
    table: &[u8],
    index: &[u8],
    n: usize,
    read_only: bool,
    their_heads: &[u8],
    heads: Option<usize>,
) -> bool
    requires { Indexed table.now index.now n × (heard_good their_heads.now heads ≡ true) }
    ensures { result ≡ true → (w : List Waiting)
        → need_of (rows_at table.now 0 n) w read_only (heard (heard_hashes their_heads.now heads)) ≡ [] }
{
    let entries = asked_heads(read_only, heads);
    all_held(table, index, n, their_heads, 0, entries)
}

// What is missing from the heads that were heard, by the numbers of its hashes: those of the heads come first, so nothing else is asked for exactly if
// no more are found behind them.
pub fn find_need(
    table: &[u8],
    index: &[u8],
    n: usize,
    waiting: &[u8],
    order: &[u8; ORDER_SIZE],
    m: usize,
    read_only: bool,
    their_heads: &[u8],
    heads: Option<usize>,
    refs: &mut [u32],
) -> Asked
    requires { Indexed table.now index.now n × (waiting_checked (rows_at table.now 0 n) waiting.now ≡ Ok m)
        × Sorted waiting.now order.now m × (heard_good their_heads.now heads ≡ true) × (length refs.old ≡ sizes.hashes + 1) }
    ensures { NeedFound their_heads.now waiting.now refs.new
        (need_of (rows_at table.now 0 n) (waiting_of waiting.now) read_only (heard (heard_hashes their_heads.now heads)))
        (heard_hashes their_heads.now heads) result }
{
    let entries = asked_heads(read_only, heads);
    let found = find_in_order(
        table,
        index,
        n,
        waiting,
        order,
        m,
        their_heads,
        0,
        entries,
        refs,
    );
    Asked {
        heads: entries,
        count: found.all,
        heard: found.listed == found.all,
    }
}
