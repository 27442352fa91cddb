// Unknown hashes taken by their numbers: those of a list, and those that the asked waiting rows ask for. The waiting rows' bytes are what follows the list.
ghost use Rattle.std.specs.Prelude.{cond, false, ◌∷◌, [], ◌≡◌, ℕ, ◌+◌, ◌-◌, ◌*◌, ◌≤◌, ◌<◌, length, get_or};
ghost use Rattle.hash_refs.specs.Internal.Refs.{ref_hash, ref_end, FoundRefs};
ghost use Rattle.rules.specs.Sizes.{sizes};
ghost use Rattle.table.specs.TableBytes.{rows_at};
ghost use Rattle.table_index.specs.Index.{Indexed, hashes_from};
ghost use Rattle.waiting.specs.WaitingBytes.{waiting_size, waitings_at, asks_count, Sorted};
ghost use Rattle.waiting_missing.specs.Internal.Take.{Took};
ghost use Rattle.waiting_missing.specs.Missing.{unknown, asks_from};

use hash_refs::found::add_ref;
use hash_refs::refs::put_ref;
use rules::sizes::HASH_SIZE;
use table_index::look::look_up;
use waiting::check::asks_count;
use waiting::find::find_waiting;
use waiting::row::{ASKS_PLACE, WAITING_SIZE};

// Takes the number of a hash among the found ones if the hash is unknown, and returns how many they are then.
fn take_ref(
    table: &[u8],
    index: &[u8],
    n: usize,
    waiting: &[u8],
    order: &[u8],
    m: usize,
    list: &[u8],
    place: usize,
    entries: usize,
    refs: &mut [u32],
    count: usize,
    number: usize,
) -> usize
    requires { Indexed table.now index.now n × Sorted waiting.now order.now m × FoundRefs list.now place entries waiting.now refs.old count
        × (number < ref_end entries waiting.now) }
    ensures { Took list.now place entries waiting.now
        (unknown (rows_at table.now 0 n) (waitings_at waiting.now 0 m))
        (ref_hash list.now place entries waiting.now number ∷ []) refs.old count refs.new result }
{
    let mut hash = [0u8; HASH_SIZE];
    put_ref(list, place, entries, waiting, number, &mut hash, 0);
    if look_up(table, index, n, &hash, 0) < n {
        return count;
    }
    if find_waiting(waiting, order, m, &hash, 0) < m {
        return count;
    }
    add_ref(list, place, entries, waiting, refs, count, number, &hash)
}

// Takes the numbers from the first up to an end.
pub fn take_refs(
    table: &[u8],
    index: &[u8],
    n: usize,
    waiting: &[u8],
    order: &[u8],
    m: usize,
    list: &[u8],
    place: usize,
    entries: usize,
    refs: &mut [u32],
    count: usize,
    first: usize,
    end: usize,
) -> usize
    requires { Indexed table.now index.now n × Sorted waiting.now order.now m × FoundRefs list.now place entries waiting.now refs.old count
        × (first ≤ end) × (end ≤ ref_end entries waiting.now) }
    ensures { Took list.now place entries waiting.now
        (unknown (rows_at table.now 0 n) (waitings_at waiting.now 0 m))
        (hashes_from (ref_hash list.now place entries waiting.now) first (end - first))
        refs.old count refs.new result }
{
    let mut found = count;
    for i in first..end {
        found = take_ref(
            table, index, n, waiting, order, m, list, place, entries, refs, found, i,
        );
    }
    found
}

// How many hashes a waiting row asks for, if it is asked.
fn asked_count(waiting: &[u8], marks: &[bool], row: usize) -> usize
    requires { ((row + 1) * waiting_size ≤ length waiting.now) × (row < length marks.now) }
    ensures { result ≡ cond (get_or marks.now row false) (asks_count waiting.now row) 0 }
{
    if marks[row] {
        return asks_count(waiting, row);
    }
    0
}

// Takes the numbers of all hashes that the marked waiting rows ask for.
pub fn take_asked(
    table: &[u8],
    index: &[u8],
    n: usize,
    waiting: &[u8],
    order: &[u8],
    m: usize,
    marks: &[bool],
    list: &[u8],
    place: usize,
    entries: usize,
    refs: &mut [u32],
    count: usize,
) -> usize
    requires { Indexed table.now index.now n × Sorted waiting.now order.now m × FoundRefs list.now place entries waiting.now refs.old count
        × (m ≤ length marks.now) × ((i : ℕ) → i < m → asks_count waiting.now i ≤ sizes.dependencies) }
    ensures { Took list.now place entries waiting.now
        (unknown (rows_at table.now 0 n) (waitings_at waiting.now 0 m))
        (asks_from 0 (waitings_at waiting.now 0 m) (λ i. get_or marks.now i false))
        refs.old count refs.new result }
{
    let mut found = count;
    for row in 0..m {
        let first = entries + (row * WAITING_SIZE + ASKS_PLACE) / HASH_SIZE;
        let end = first + asked_count(waiting, marks, row);
        found = take_refs(
            table, index, n, waiting, order, m, list, place, entries, refs, found, first, end,
        );
    }
    found
}
