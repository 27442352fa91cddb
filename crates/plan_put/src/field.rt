// The field of a filter over the marked rows of a table.
ghost use Rattle.std.specs.Prelude.{◌≡◌, ◌*◌, ◌≤◌, ◌<◌, length, replicate};
ghost use Rattle.table_graph.specs.Internal.Marks.{marked, picked};
ghost use Rattle.plan_put.specs.Internal.PlanPut.{NextMarked};
ghost use Rattle.bloom_probe.specs.Build.{add_hashes};
ghost use Rattle.bloom_probe.specs.Internal.Start.{start_at};
ghost use Rattle.rules.specs.Sizes.{sizes};
ghost use Rattle.table.specs.TableBytes.{row_size, rows_at};
ghost use Rattle.table.specs.Table.{rows};

use bloom_probe::build::{Start, clear, set_probes, start_of};
use bloom_probe::probes::count;
use table::row::ROW_SIZE;

// The first marked row from row i on, or n where there is none.
fn next_marked(n: usize, marks: &[bool], i: usize) -> usize
    requires { (n ≤ length marks.now) × (i ≤ n) }
    ensures { NextMarked n marks.now i result }
{
    for k in i..n {
        if marks[k] {
            return k;
        }
    }
    n
}

// Where the probes of a row's hash start; behind the last row nothing is claimed of it.
fn row_start(table: &[u8], n: usize, row: usize, m: u32) -> Start
    requires { (n * row_size ≤ length table.now) × (row < n → 0 < m) }
    ensures { row < n → result ≡ start_at table.now (row * row_size) m }
{
    if row < n {
        return start_of(table, row * ROW_SIZE, m);
    }
    Start { x: 0, y: 0, z: 0 }
}

// Adds the hash of each marked row. The start of a hash is reduced before the bits of the one before it are set, so that the processor divides
// while it sets them.
fn add_marked(field: &mut [u8], probes: u64, table: &[u8], n: usize, marks: &[bool])
    requires { (n * row_size ≤ length table.now) × (n ≤ length marks.now) × (marked n marks.now ≤ 8 * length field.old)
        × (length field.old ≤ sizes.field) }
    ensures { field.new ≡ add_hashes probes field.old (picked (rows (rows_at table.now 0 n)) marks.now) }
{
    let m = 8 * field.len() as u32;
    let rounds = count(probes);
    let mut row = next_marked(n, marks, 0);
    let mut next = row_start(table, n, row, m);
    // Each turn finds the next marked row and reduces its start before it sets this one's bits: a loop over all rows would be no plainer.
    while row < n {
        let start = next;
        row = next_marked(n, marks, row + 1);
        next = row_start(table, n, row, m);
        set_probes(field, rounds, start, m);
    }
}

// Clears a field and adds the hash of each marked row to it.
pub fn fill_marked(field: &mut [u8], probes: u64, table: &[u8], n: usize, marks: &[bool])
    requires { (n * row_size ≤ length table.now) × (n ≤ length marks.now) × (marked n marks.now ≤ 8 * length field.old)
        × (length field.old ≤ sizes.field) }
    ensures { field.new ≡ add_hashes probes (replicate (length field.old) 0) (picked (rows (rows_at table.now 0 n)) marks.now) }
{
    clear(field);
    add_marked(field, probes, table, n, marks);
}
