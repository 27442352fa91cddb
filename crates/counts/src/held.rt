// Which rows of one table another holds, by one walk along the indexes of both.
ghost use Rattle.std.specs.Prelude.{◌≡◌, ◌+◌, ◌≤◌, length};
ghost use Rattle.counts.specs.Internal.Walked.{hashes_along};
ghost use Rattle.hash_order.specs.Order.{place_of};
ghost use Rattle.rules.specs.Hash.{hash_at};
ghost use Rattle.rules.specs.Sizes.{sizes};
ghost use Rattle.table.specs.Table.{held, hash_of};
ghost use Rattle.table.specs.TableBytes.{rows_at};
ghost use Rattle.table_graph.specs.Internal.Marks.{Marks};
ghost use Rattle.table_index.specs.Index.{Indexed};

use hash_order::hashes::{hash_before, same_hash};
use rules::little_endian::u16_at;
use table::row::ROW_SIZE;

// How many rows along an index have a hash before the one at a place, if `from` of them are known to: the index is walked on from there.
fn place_from(table: &[u8], index: &[u8], n: usize, from: usize, bytes: &[u8], at: usize) -> usize
    requires { Indexed table.now index.now n × (at + sizes.hash ≤ length bytes.now)
        × (from ≤ place_of (hash_at bytes.now at) (hashes_along table.now index.now n)) }
    ensures { result ≡ place_of (hash_at bytes.now at) (hashes_along table.now index.now n) }
{
    for k in from..n {
        let row = u16_at(index, 2 * k);
        if !hash_before(table, row * ROW_SIZE, bytes, at) {
            return k;
        }
    }
    n
}

// Whether a table holds the hash at a place, whose place along its index is k.
fn held_at(table: &[u8], index: &[u8], n: usize, k: usize, bytes: &[u8], at: usize) -> bool
    requires { Indexed table.now index.now n × (at + sizes.hash ≤ length bytes.now)
        × (k ≡ place_of (hash_at bytes.now at) (hashes_along table.now index.now n)) }
    ensures { result ≡ held (rows_at table.now 0 n) (hash_at bytes.now at) }
{
    if n <= k {
        return false;
    }
    let row = u16_at(index, 2 * k);
    same_hash(table, row * ROW_SIZE, bytes, at)
}

// Marks the listener's rows that the sender holds. Hashes ascend along both indexes, so the place in the sender's never goes back.
pub fn mark_held(
    sender: &[u8],
    sender_index: &[u8],
    m: usize,
    listener: &[u8],
    index: &[u8],
    n: usize,
    marks: &mut [bool],
)
    requires { Indexed sender.now sender_index.now m × Indexed listener.now index.now n × (n ≤ length marks.old) }
    ensures { Marks n marks.new
        (λ i. held (rows_at sender.now 0 m) (hash_of (rows_at listener.now 0 n) i)) }
{
    let mut k = 0;
    for i in 0..n {
        let row = u16_at(index, 2 * i);
        k = place_from(sender, sender_index, m, k, listener, row * ROW_SIZE);
        marks[row] = held_at(sender, sender_index, m, k, listener, row * ROW_SIZE);
    }
}
