// What is missing from a list of hashes, each once, ascending.
ghost use Rattle.std.specs.Prelude.{◌≡◌, ◌+◌, ◌*◌, ◌≤◌, length, Ok};
ghost use Rattle.table_index.specs.Index.{Indexed};
ghost use Rattle.rules.specs.Hash.{hashes_at};
ghost use Rattle.rules.specs.Output.{Written};
ghost use Rattle.rules.specs.Sizes.{sizes};
ghost use Rattle.table.specs.TableBytes.{rows_at};
ghost use Rattle.waiting.specs.WaitingBytes.{waiting_of, waiting_checked, Sorted};
ghost use Rattle.waiting_missing.specs.Internal.Take.{RefsFound};
ghost use Rattle.waiting_missing.specs.MissingCalls.{missing_from, missing_beside, missing_output};
ghost use Rattle.waiting_missing.specs.Missing.{missing};

use crate::take::{take_asked, take_refs};
use hash_refs::found::write_found;
use rules::passed::passed_hashes;
use rules::refusal::Refusal;
use rules::sizes::{HASHES, WAITING_ROWS};
use table_check::check::check_indexed;
use waiting::check::check_in_order;
use waiting::find::ORDER_SIZE;
use waiting_asked::ask::ask_hashes;

// Numbers of one hash more than a list may have, so that too many show.
pub const FOUND: usize = HASHES + 1;

// How many hashes are missing, and how many of them stand in the list that was asked about.
#[derive(Clone, Copy)]
pub struct FoundCount {
    pub listed: usize,
    pub all: usize,
}

// What is missing from some hashes, for callers that have checked both tables and put the waiting rows in order: puts the numbers of the hashes in
// ascending order of these and returns how many they are, or fills the numbers. Those of the list are found first.
pub fn find_in_order(
    table: &[u8],
    index: &[u8],
    n: usize,
    waiting: &[u8],
    order: &[u8; ORDER_SIZE],
    m: usize,
    list: &[u8],
    place: usize,
    entries: usize,
    refs: &mut [u32],
) -> FoundCount
    requires { Indexed table.now index.now n × (waiting_checked (rows_at table.now 0 n) waiting.now ≡ Ok m)
        × Sorted waiting.now order.now m × (place + sizes.hash * entries ≤ length list.now) × (entries ≤ sizes.hashes) }
    ensures { RefsFound list.now place entries waiting.now
        (missing (rows_at table.now 0 n) (waiting_of waiting.now) (hashes_at list.now place entries)) refs.new result }
{
    let mut marks = [false; WAITING_ROWS];
    ask_hashes(waiting, order, m, &mut marks, list, place, entries);
    let listed = take_refs(
        table, index, n, waiting, order, m, list, place, entries, refs, 0, 0, entries,
    );
    let all = take_asked(
        table, index, n, waiting, order, m, &marks, list, place, entries, refs, listed,
    );
    FoundCount { listed, all }
}

// What is missing from a list, for tables that are good: the list's own refusals, then 4 for too many hashes, then 7.
fn missing_from(
    table: &[u8],
    index: &[u8],
    n: usize,
    waiting: &[u8],
    order: &[u8; ORDER_SIZE],
    m: usize,
    l: &[u8],
    out: &mut [u8],
) -> Result<usize, Refusal>
    requires { Indexed table.now index.now n × (waiting_checked (rows_at table.now 0 n) waiting.now ≡ Ok m)
        × Sorted waiting.now order.now m }
    ensures { Written (missing_from (rows_at table.now 0 n) (waiting_of waiting.now) l.now)
        out.old out.new result }
{
    let entries = passed_hashes(l)?;
    let mut refs = [0u32; FOUND];
    let found = find_in_order(table, index, n, waiting, order, m, l, 0, entries, &mut refs);
    if HASHES < found.all {
        return Err(Refusal::PastSize(0));
    }
    write_found(l, 0, entries, waiting, &refs, found.all, out)
}

// Writes what is missing from a passed list, or refuses, once the change table is checked: the waiting table's check leaves the order that look-ups want.
fn missing_beside(
    table: &[u8],
    index: &[u8],
    n: usize,
    waiting: &[u8],
    l: &[u8],
    out: &mut [u8],
) -> Result<usize, Refusal>
    requires { Indexed table.now index.now n }
    ensures { Written (missing_beside (rows_at table.now 0 n) waiting.now l.now)
        out.old out.new result }
{
    let mut order = [0u8; ORDER_SIZE];
    let m = check_in_order(table, index, n, waiting, &mut order)?;
    missing_from(table, index, n, waiting, &order, m, l, out)
}

// What is missing from a list of hashes, each once, ascending.
pub fn missing(
    table: &[u8],
    index: &[u8],
    waiting: &[u8],
    l: &[u8],
    out: &mut [u8],
) -> Result<usize, Refusal>
    ensures { Written (missing_output table.now index.now waiting.now l.now)
        out.old out.new result }
{
    let n = check_indexed(table, index)?;
    missing_beside(table, index, n, waiting, l, out)
}
