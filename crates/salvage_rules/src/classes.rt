// A number for each row, the same for rows of the same hash, found along the order of all rows, which have room for d dependencies.
ghost use Rattle.std.specs.Prelude.{◌≡◌, ◌-◌, ◌*◌, ◌≤◌, ◌<◌, length};
ghost use Rattle.rules.specs.LittleEndian.{u16_at};
ghost use Rattle.rules.specs.Sizes.{sizes};
ghost use Rattle.table.specs.TableBytes.{row_size_of};
ghost use Rattle.table_index.specs.Index.{record_hash};
ghost use Rattle.table_check.specs.Internal.Repeats.{RowOrder};
ghost use Rattle.salvage_rules.specs.Internal.Decided.{run_start, Classes};

use hash_order::hashes::same_hash;
use rules::little_endian::u16_at;
use table::row::row_place;

// Where entry k's run of rows with one hash begins: where the run of the entry before it does, if both rows have the same hash, else at k.
fn run_start(d: usize, table: &[u8], order: &[u8], n: usize, k: usize, last: usize) -> usize
    requires { RowOrder d table.now order.now n × (k < n)
        × (last ≡ run_start (λ j. record_hash table.now (row_size_of d) (u16_at order.now (2 * j))) (k - 1)) }
    ensures { result ≡ run_start (λ j. record_hash table.now (row_size_of d) (u16_at order.now (2 * j))) k }
{
    if k == 0 {
        return 0;
    }
    let row = u16_at(order, 2 * k);
    let before = u16_at(order, 2 * (k - 1));
    if !same_hash(table, row_place(d, row), table, row_place(d, before)) {
        return k;
    }
    last
}

// Gives each row the place where the run of its hash begins.
pub fn put_classes(d: usize, table: &[u8], order: &[u8], n: usize, classes: &mut [u16])
    requires { RowOrder d table.now order.now n × (n ≤ length classes.old) × (n ≤ sizes.rows) }
    ensures { Classes (record_hash table.now (row_size_of d)) n classes.new }
{
    let mut start = 0;
    for k in 0..n {
        start = run_start(d, table, order, n, k, start);
        let row = u16_at(order, 2 * k);
        classes[row] = start as u16;
    }
}
