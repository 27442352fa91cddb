// The hashes to send as marks, one for each need and one for each row: chosen and counted first, put when it is known that there is room.
ghost use Rattle.std.specs.Prelude.{List, ◌≡◌, ℕ, ◌+◌, ◌*◌, ◌≤◌, length};
ghost use Rattle.std.proofs.lemmas.List.Edits.{sets};
ghost use Rattle.bloom.specs.Have.{haves_of, GoodFilters};
ghost use Rattle.table_index.specs.Index.{Indexed};
ghost use Rattle.rules.specs.Hash.{hash_at, hashes_at, hashes_bytes};
ghost use Rattle.rules.specs.Sizes.{sizes};
ghost use Rattle.table.specs.TableBytes.{rows_at, GoodRows};
ghost use Rattle.table_graph.specs.Internal.Marks.{Marks, Blank, marked, picked};
ghost use Rattle.send_members.specs.Internal.Members.{SyncsInside};
ghost use Rattle.send.specs.Internal.Chosen.{answered_row, held_unmarked, chosen_by, SentRows, Chosen, Choosable};
ghost use Rattle.send.specs.ToSend.{to_send_less};

use bloom::have::HAVE_WORDS;
use hash_order::hashes::put_hash;
use rules::sizes::HASH_SIZE;
use send_members::members::mark_s;
use table_graph::marked::{count_marked, put_marked};
use table_graph::marks::unmark;
use table_index::look::look_up;

// Marks the rows that are sent without being needed: S, or none where there is no have.
fn mark_answer(
    table: &[u8],
    index: &[u8],
    n: usize,
    bytes: &[u8],
    haves: &[u64],
    marks: &mut [bool],
)
    requires { Indexed table.now index.now n × GoodFilters bytes.now haves.now × SyncsInside bytes.now haves.now
        × (n ≤ length marks.old) × Blank n marks.old }
    ensures { Marks n marks.new (answered_row (rows_at table.now 0 n) (haves_of bytes.now haves.now)) }
{
    if haves.len() < HAVE_WORDS {
        return;
    }
    mark_s(table, index, n, bytes, haves, marks);
}

// Whether the hash at a place has a row, and one that neither marks name.
fn held_unmarked(
    table: &[u8],
    index: &[u8],
    n: usize,
    need: &[u8],
    at: usize,
    members: &[bool],
    past: &[bool],
) -> bool
    requires { Indexed table.now index.now n × (at + sizes.hash ≤ length need.now) × (n ≤ length members.now) × (n ≤ length past.now) }
    ensures { result ≡ held_unmarked (rows_at table.now 0 n) members.now past.now (hash_at need.now at) }
{
    let row = look_up(table, index, n, need, at);
    if n <= row {
        return false;
    }
    if members[row] {
        return false;
    }
    !past[row]
}

// Marks the hashes of a list that have such rows, repeats too.
fn mark_needs(
    table: &[u8],
    index: &[u8],
    n: usize,
    need: &[u8],
    place: usize,
    count: usize,
    members: &[bool],
    past: &[bool],
    needs: &mut [bool],
)
    requires { Indexed table.now index.now n × (place + sizes.hash * count ≤ length need.now)
        × (n ≤ length members.now) × (n ≤ length past.now) × (count ≤ length needs.old) }
    ensures { Marks count needs.new
        (λ k. held_unmarked (rows_at table.now 0 n) members.now past.now
        (hash_at need.now (place + sizes.hash * k))) }
{
    for k in 0..count {
        let here = held_unmarked(table, index, n, need, place + HASH_SIZE * k, members, past);
        needs[k] = here;
    }
}

// Chooses what is to be sent, less the hashes that were sent before, and returns how many it is: a mark for each need, and one for each row that
// follows them. The rows of the sent hashes come as marks, so that a need costs one look-up.
pub fn choose(
    table: &[u8],
    index: &[u8],
    n: usize,
    bytes: &[u8],
    haves: &[u64],
    need: &[u8],
    place: usize,
    count: usize,
    past: &[bool],
    marks: &mut [bool],
    needs: &mut [bool],
) -> usize
    requires { Choosable table.now index.now n bytes.now haves.now need.now place count × (n ≤ length past.now)
        × (n ≤ length marks.old) × Blank n marks.old × (count ≤ length needs.old) }
    ensures { (sent : List ℕ) → SentRows (rows_at table.now 0 n) n sent past.now
        → Chosen (to_send_less (rows_at table.now 0 n) (haves_of bytes.now haves.now)
        (hashes_at need.now place count) sent)
        (rows_at table.now 0 n) marks.new (hashes_at need.now place count) needs.new result }
{
    mark_answer(table, index, n, bytes, haves, marks);
    mark_needs(table, index, n, need, place, count, marks, past, needs);
    unmark(n, marks, past);
    count_marked(count, needs) + count_marked(n, marks)
}

// Copies the hashes of a list that are marked to the buffer's start, one behind the other, and returns where they end.
fn put_needs(need: &[u8], place: usize, count: usize, needs: &[bool], out: &mut [u8]) -> usize
    requires { (place + sizes.hash * count ≤ length need.now) × (count ≤ length needs.now)
        × (sizes.hash * marked count needs.now ≤ length out.old) }
    ensures { (out.new ≡ sets out.old 0 (hashes_bytes (picked (hashes_at need.now place count) needs.now)))
        × (result ≡ sizes.hash * marked count needs.now) }
{
    let mut at = 0;
    for k in 0..count {
        if needs[k] {
            put_hash(out, at, need, place + HASH_SIZE * k);
            at += HASH_SIZE;
        }
    }
    at
}

// Copies what was chosen to the buffer's start: the needs that are marked in their order, then the marked rows in table order.
pub fn put_chosen(
    table: &[u8],
    n: usize,
    marks: &[bool],
    need: &[u8],
    place: usize,
    count: usize,
    needs: &[bool],
    out: &mut [u8],
)
    requires { GoodRows table.now n × (n ≤ length marks.now) × (place + sizes.hash * count ≤ length need.now) × (count ≤ length needs.now)
        × (sizes.hash * length (chosen_by (rows_at table.now 0 n) marks.now (hashes_at need.now place count) needs.now) ≤ length out.old) }
    ensures { out.new ≡ sets out.old 0
        (hashes_bytes (chosen_by (rows_at table.now 0 n) marks.now (hashes_at need.now place count) needs.now)) }
{
    let end = put_needs(need, place, count, needs, out);
    put_marked(table, n, marks, out, end);
}
