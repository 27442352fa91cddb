// The first row whose hash an earlier row has, found along the order of all rows, which have room for d dependencies.
ghost use Rattle.std.specs.Prelude.{◌≡◌, ◌+◌, ◌*◌, ◌<◌};
ghost use Rattle.rules.specs.LittleEndian.{u16_at};
ghost use Rattle.table.specs.TableBytes.{row_size_of, first_bad};
ghost use Rattle.table_index.specs.Index.{record_hash};
ghost use Rattle.table_check.specs.Internal.Repeats.{RowOrder, new_hash, or_repeat};

use hash_order::hashes::same_hash;
use rules::little_endian::u16_at;
use table::row::row_place;

// The lesser of a row and the one that entry k names, if the next entry's has the same hash; else the row.
fn or_repeat(d: usize, table: &[u8], order: &[u8], n: usize, k: usize, first: usize) -> usize
    requires { RowOrder d table.now order.now n × (k + 1 < n) }
    ensures { result ≡ or_repeat (record_hash table.now (row_size_of d)) first
        (u16_at order.now (2 * k)) (u16_at order.now (2 * (k + 1))) }
{
    let row = u16_at(order, 2 * k);
    let next = u16_at(order, 2 * (k + 1));
    if !same_hash(table, row_place(d, row), table, row_place(d, next)) {
        return first;
    }
    if row < first {
        return row;
    }
    first
}

// The first of the first n rows whose hash an earlier row has, or n.
pub fn first_repeat(d: usize, table: &[u8], order: &[u8], n: usize) -> usize
    requires { RowOrder d table.now order.now n }
    ensures { result ≡ first_bad (new_hash d table.now) 0 n }
{
    let mut first = n;
    for k in 0..n.saturating_sub(1) {
        first = or_repeat(d, table, order, n, k, first);
    }
    first
}
