// Records looked up by an index.
ghost use Rattle.std.specs.Prelude.{true, ◌≡◌, map, ◌+◌, ◌*◌, ◌≤◌, length};
ghost use Rattle.hash_order.specs.Order.{place_of};
ghost use Rattle.rules.specs.Hash.{hash_at};
ghost use Rattle.rules.specs.Sizes.{sizes};
ghost use Rattle.table.specs.TableBytes.{rows_at, u16s_at};
ghost use Rattle.table.specs.Table.{rows, index_in};
ghost use Rattle.table_index.specs.Index.{Indexed, Ordered, fits_by, hashes_from, record_hash};

use hash_order::hashes::{hash_before, same_hash};
use rules::little_endian::u16_at;
use table::row::ROW_SIZE;

// How many of the first n entries name a record whose hash is before the one at a place. Records are of `size` bytes and begin with their hash;
// hashes don't fall along the entries, so it is halved.
pub fn place_by(
    records: &[u8],
    size: usize,
    index: &[u8],
    n: usize,
    bytes: &[u8],
    at: usize,
) -> usize
    requires { (n * size ≤ length records.now) × (sizes.hash ≤ size) × (2 * n ≤ length index.now) × (at + sizes.hash ≤ length bytes.now)
        × Ordered (record_hash records.now size) n (u16s_at index.now 0 n) }
    ensures { result ≡ place_of (hash_at bytes.now at)
        (map (record_hash records.now size) (u16s_at index.now 0 n)) }
{
    let mut low = 0;
    let mut high = n;
    // The library halves a slice of elements; an index is lent as bytes, two for each entry, and so is halved here.
    while low < high {
        let middle = low + (high - low) / 2;
        let r = u16_at(index, 2 * middle);
        if hash_before(records, r * size, bytes, at) {
            low = middle + 1;
        } else {
            high = middle;
        }
    }
    low
}

// The record that has the hash at a place, or n where none has: what a scan of the records finds.
pub fn find_by(
    records: &[u8],
    size: usize,
    index: &[u8],
    n: usize,
    bytes: &[u8],
    at: usize,
) -> usize
    requires { (n * size ≤ length records.now) × (sizes.hash ≤ size) × (2 * n ≤ length index.now) × (at + sizes.hash ≤ length bytes.now)
        × (fits_by (record_hash records.now size) n (u16s_at index.now 0 n) ≡ true) }
    ensures { result ≡ index_in (hashes_from (record_hash records.now size) 0 n) (hash_at bytes.now at) }
{
    let k = place_by(records, size, index, n, bytes, at);
    if k < n {
        let r = u16_at(index, 2 * k);
        if same_hash(records, r * size, bytes, at) {
            return r;
        }
    }
    n
}

// The row of a change table that has the hash at a place, or n where none has.
pub fn look_up(table: &[u8], index: &[u8], n: usize, bytes: &[u8], at: usize) -> usize
    requires { Indexed table.now index.now n × (at + sizes.hash ≤ length bytes.now) }
    ensures { result ≡ index_in (rows (rows_at table.now 0 n)) (hash_at bytes.now at) }
{
    find_by(table, ROW_SIZE, index, n, bytes, at)
}
