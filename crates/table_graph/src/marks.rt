// A mark for each row of a change table: rows of a list, rows that others depend on, and all that lies below the marked ones.
//
// An array of marks is made where its meaning is, and lent on from there: no call copies one.
ghost use Rattle.std.specs.Prelude.{false, not, ◌&&◌, ◌||◌, ◌≡◌, ◌+◌, ◌*◌, ◌≤◌, length, get_or};
ghost use Rattle.table_index.specs.Index.{Indexed};
ghost use Rattle.hash_order.specs.Order.{member};
ghost use Rattle.hash_order.specs.Reach.{reach};
ghost use Rattle.rules.specs.Hash.{hash_at, hashes_at};
ghost use Rattle.rules.specs.Sizes.{sizes};
ghost use Rattle.table.specs.TableBytes.{used_at, rows_at, GoodRows};
ghost use Rattle.table.specs.Table.{rows, hash_of, deps_of};
ghost use Rattle.table_graph.specs.Graph.{needed};
ghost use Rattle.table_graph.specs.Internal.Marks.{Marks, picked, mark_all, mark_row, mark_down, mark_hash};

use rules::sizes::HASH_SIZE;
use table::row::{dep, dep_count};
use table_index::look::look_up;

// Marks the rows that row i depends on.
fn mark_deps(table: &[u8], i: usize, marks: &mut [bool])
    requires { GoodRows table.now (i + 1) × (i ≤ length marks.old) }
    ensures { marks.new ≡ mark_all marks.old (used_at table.now i) }
{
    for j in 0..dep_count(table, i) {
        marks[dep(table, i, j)] = true;
    }
}

// Whether a row counts: where every row does, or it is marked.
fn counts(every: bool, mark: bool) -> bool
    ensures { result ≡ (every || mark) }
{
    if every {
        return true;
    }
    mark
}

// Marks what row i depends on if row i is marked itself, or if every row counts.
fn mark_row(table: &[u8], every: bool, i: usize, marks: &mut [bool])
    requires { GoodRows table.now (i + 1) × (i + 1 ≤ length marks.old) }
    ensures { marks.new ≡ mark_row every (used_at table.now) i marks.old }
{
    if !counts(every, marks[i]) {
        return;
    }
    mark_deps(table, i, marks);
}

// Marks what the marked rows depend on, or what every row does. From the last row to the first, so that a row's mark is final when its turn comes.
fn mark_down(table: &[u8], n: usize, every: bool, marks: &mut [bool])
    requires { GoodRows table.now n × (n ≤ length marks.old) }
    ensures { marks.new ≡ mark_down every (deps_of (rows_at table.now 0 n)) n marks.old }
{
    for i in (0..n).rev() {
        mark_row(table, every, i, marks);
    }
}

// Marks all that lies below the marked rows.
pub fn mark_below(table: &[u8], n: usize, marks: &mut [bool])
    requires { GoodRows table.now n × (n ≤ length marks.old) }
    ensures { Marks n marks.new
        (reach n (λ k. get_or marks.old k false) (λ k j. member j (deps_of (rows_at table.now 0 n) k))) }
{
    mark_down(table, n, false, marks);
}

// Marks each row that a row depends on.
pub fn mark_needed(table: &[u8], n: usize, marks: &mut [bool])
    requires { GoodRows table.now n × (n ≤ length marks.old) }
    ensures { Marks n marks.new (λ i. get_or marks.old i false || needed (rows_at table.now 0 n) i) }
{
    mark_down(table, n, true, marks);
}

// Marks the row of the hash at a place, if there is one.
fn mark_hash(table: &[u8], index: &[u8], n: usize, l: &[u8], at: usize, marks: &mut [bool])
    requires { Indexed table.now index.now n × (at + sizes.hash ≤ length l.now) × (n ≤ length marks.old) }
    ensures { marks.new ≡ mark_hash (rows (rows_at table.now 0 n)) marks.old (hash_at l.now at) }
{
    let row = look_up(table, index, n, l, at);
    if n <= row {
        return;
    }
    marks[row] = true;
}

// Marks the rows of the hashes of a list; unknown ones are ignored.
pub fn mark_list(
    table: &[u8],
    index: &[u8],
    n: usize,
    l: &[u8],
    place: usize,
    count: usize,
    marks: &mut [bool],
)
    requires { Indexed table.now index.now n × (place + sizes.hash * count ≤ length l.now) × (n ≤ length marks.old) }
    ensures { Marks n marks.new
        (λ i. get_or marks.old i false || member (hash_of (rows_at table.now 0 n) i) (hashes_at l.now place count)) }
{
    for k in 0..count {
        mark_hash(table, index, n, l, place + HASH_SIZE * k, marks);
    }
}

// Marks the rows of the hashes of a list that are themselves marked; unknown ones are ignored.
pub fn mark_picked(
    table: &[u8],
    index: &[u8],
    n: usize,
    l: &[u8],
    count: usize,
    picks: &[bool],
    marks: &mut [bool],
)
    requires { Indexed table.now index.now n × (sizes.hash * count ≤ length l.now) × (count ≤ length picks.now) × (n ≤ length marks.old) }
    ensures { Marks n marks.new
        (λ i. get_or marks.old i false
        || member (hash_of (rows_at table.now 0 n) i) (picked (hashes_at l.now 0 count) picks.now)) }
{
    for k in 0..count {
        if picks[k] {
            mark_hash(table, index, n, l, HASH_SIZE * k, marks);
        }
    }
}

// Marks just the rows that others mark.
pub fn copy_marks(n: usize, others: &[bool], marks: &mut [bool])
    requires { (n ≤ length others.now) × (n ≤ length marks.old) }
    ensures { Marks n marks.new (λ i. get_or others.now i false) }
{
    // Not by copy_from_slice: it asks for memmove, which the archive does without.
    for i in 0..n {
        marks[i] = others[i];
    }
}

// Marks all of the first rows, or none.
pub fn set_marks(n: usize, mark: bool, marks: &mut [bool])
    requires { n ≤ length marks.old }
    ensures { Marks n marks.new (λ i. mark) }
{
    marks[..n].fill(mark);
}

// Marks just the first rows that weren't marked.
pub fn flip(n: usize, marks: &mut [bool])
    requires { n ≤ length marks.old }
    ensures { Marks n marks.new (λ i. not (get_or marks.old i false)) }
{
    for mark in &mut marks[..n] {
        *mark = !*mark;
    }
}

// Takes the marks off the first rows that others mark.
pub fn unmark(n: usize, marks: &mut [bool], others: &[bool])
    requires { (n ≤ length marks.old) × (n ≤ length others.now) }
    ensures { Marks n marks.new (λ i. get_or marks.old i false && not (get_or others.now i false)) }
{
    for i in 0..n {
        if others[i] {
            marks[i] = false;
        }
    }
}
