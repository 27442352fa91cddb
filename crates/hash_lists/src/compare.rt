// Lists looked up in one another or in a table.
ghost use Rattle.std.specs.Prelude.{◌≡◌, ◌+◌, ◌*◌, ◌≤◌, length};
ghost use Rattle.table_index.specs.Index.{Indexed};
ghost use Rattle.hash_order.specs.Order.{member, every};
ghost use Rattle.rules.specs.Hash.{hash_at, hashes_at};
ghost use Rattle.rules.specs.Sizes.{sizes};
ghost use Rattle.table.specs.TableBytes.{rows_at};
ghost use Rattle.table.specs.Table.{held};

use hash_order::hashes::same_hash;
use rules::sizes::HASH_SIZE;
use table_index::look::look_up;

// Whether the hash at a place stands in a list.
pub fn is_in(bytes: &[u8], at: usize, list: &[u8], place: usize, count: usize) -> bool
    requires { (at + sizes.hash ≤ length bytes.now) × (place + sizes.hash * count ≤ length list.now) }
    ensures { result ≡ member (hash_at bytes.now at) (hashes_at list.now place count) }
{
    for k in 0..count {
        if same_hash(bytes, at, list, place + HASH_SIZE * k) {
            return true;
        }
    }
    false
}

// Whether a table holds every hash of a list.
pub fn all_held(
    table: &[u8],
    index: &[u8],
    n: usize,
    bytes: &[u8],
    place: usize,
    count: usize,
) -> bool
    requires { Indexed table.now index.now n × (place + sizes.hash * count ≤ length bytes.now) }
    ensures { result ≡ every (held (rows_at table.now 0 n)) (hashes_at bytes.now place count) }
{
    for k in 0..count {
        let at = place + HASH_SIZE * k;
        if n <= look_up(table, index, n, bytes, at) {
            return false;
        }
    }
    true
}
