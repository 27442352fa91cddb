// The rows that are marked: how many they are, their hashes in table order, their hashes ascending, and whether a list is these.
ghost use Rattle.std.specs.Prelude.{◌≡◌, ◌+◌, ◌*◌, ◌≤◌, length};
ghost use Rattle.std.proofs.lemmas.List.Edits.{sets};
ghost use Rattle.table_index.specs.Index.{Indexed};
ghost use Rattle.hash_lists.specs.Lists.{same};
ghost use Rattle.hash_order.specs.Order.{ascend};
ghost use Rattle.rules.specs.Hash.{hashes_at, hashes_bytes};
ghost use Rattle.rules.specs.Sizes.{sizes};
ghost use Rattle.table.specs.TableBytes.{rows_at, GoodRows};
ghost use Rattle.table.specs.Table.{rows};
ghost use Rattle.table_graph.specs.Internal.Marks.{marked, picked, Collected};

use hash_order::hashes::{put_hash, same_hash};
use rules::little_endian::u16_at;
use rules::sizes::HASH_SIZE;
use table::row::ROW_SIZE;

// How many of the first n marks are set.
pub fn count_marked(n: usize, marks: &[bool]) -> usize
    requires { n ≤ length marks.now }
    ensures { result ≡ marked n marks.now }
{
    let mut count = 0;
    for mark in &marks[..n] {
        if *mark {
            count += 1;
        }
    }
    count
}

// Copies the hashes of the first n rows that are marked to a place of the buffer, one behind the other.
pub fn put_marked(table: &[u8], n: usize, marks: &[bool], out: &mut [u8], place: usize)
    requires { GoodRows table.now n × (n ≤ length marks.now) × (place + sizes.hash * marked n marks.now ≤ length out.old) }
    ensures { out.new ≡ sets out.old place (hashes_bytes (picked (rows (rows_at table.now 0 n)) marks.now)) }
{
    let mut at = place;
    for i in 0..n {
        if marks[i] {
            put_hash(out, at, table, i * ROW_SIZE);
            at += HASH_SIZE;
        }
    }
}

// Puts the hashes of the first rows that are marked at the start of a list, ascending, and returns how many they are: the index has them in this order.
pub fn collect_marked(
    table: &[u8],
    index: &[u8],
    n: usize,
    before: usize,
    marks: &[bool],
    list: &mut [u8],
) -> usize
    requires { Indexed table.now index.now n × (before ≤ n) × (before ≤ length marks.now)
        × (sizes.hash * marked before marks.now ≤ length list.old) }
    ensures { Collected (ascend (picked (rows (rows_at table.now 0 before)) marks.now)) list.old list.new result }
{
    let mut count = 0;
    for k in 0..n {
        let row = u16_at(index, 2 * k);
        if row < before && marks[row] {
            put_hash(list, HASH_SIZE * count, table, row * ROW_SIZE);
            count += 1;
        }
    }
    count
}

// Whether the hashes at a place are those of the first rows that are marked, ascending: the index has the rows in this order.
pub fn same_marked(
    table: &[u8],
    index: &[u8],
    n: usize,
    before: usize,
    marks: &[bool],
    bytes: &[u8],
    place: usize,
    many: usize,
) -> bool
    requires { Indexed table.now index.now n × (before ≤ n) × (before ≤ length marks.now) × (place + sizes.hash * many ≤ length bytes.now) }
    ensures { result ≡ same (hashes_at bytes.now place many)
        (ascend (picked (rows (rows_at table.now 0 before)) marks.now)) }
{
    let mut count = 0;
    for k in 0..n {
        let row = u16_at(index, 2 * k);
        if row < before && marks[row] {
            if many <= count
                || !same_hash(bytes, place + HASH_SIZE * count, table, row * ROW_SIZE)
            {
                return false;
            }
            count += 1;
        }
    }
    count == many
}
