// Whether an index fits its table.
ghost use Rattle.std.specs.Prelude.{◌≡◌, ◌*◌, ◌≤◌, length};
ghost use Rattle.table.specs.TableBytes.{row_size, rows_at, u16s_at};
ghost use Rattle.table_index.specs.Index.{fits, index_fits};

use hash_order::hashes::hash_before;
use rules::little_endian::u16_at;
use table::row::ROW_SIZE;

// Whether the first n entries fit the first n rows: each below n, and of a greater hash than the one before it.
fn entries_fit(table: &[u8], index: &[u8], n: usize) -> bool
    requires { (n * row_size ≤ length table.now) × (2 * n ≤ length index.now) }
    ensures { result ≡ fits (rows_at table.now 0 n) (u16s_at index.now 0 n) }
{
    if n == 0 {
        return true;
    }
    let mut last = u16_at(index, 0);
    if n <= last {
        return false;
    }
    for i in 1..n {
        let r = u16_at(index, 2 * i);
        if n <= r {
            return false;
        }
        if !hash_before(table, last * ROW_SIZE, table, r * ROW_SIZE) {
            return false;
        }
        last = r;
    }
    true
}

// Whether an index fits the first n rows of a table: two bytes for each, and entries that fit.
pub fn index_fits(table: &[u8], index: &[u8], n: usize) -> bool
    requires { n * row_size ≤ length table.now }
    ensures { result ≡ index_fits (rows_at table.now 0 n) index.now }
{
    if index.len() != 2 * n {
        return false;
    }
    entries_fit(table, index, n)
}
