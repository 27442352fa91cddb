// How many hashes a list has, each counted once, alone or with others that ascend, where the list is to stay as it is: an order of it is made, and in this
// order those that are the same stand together.
ghost use Rattle.std.specs.Prelude.{true, ◌++◌, ◌≡◌, ◌+◌, ◌*◌, ◌≤◌, ◌<◌, eqb, length};
ghost use Rattle.hash_order.specs.Order.{ascends, ascend};
ghost use Rattle.rules.specs.Hash.{hashes_at};
ghost use Rattle.rules.specs.LittleEndian.{u16_at};
ghost use Rattle.rules.specs.Sizes.{sizes};
ghost use Rattle.table_index.specs.Index.{record_hash};
ghost use Rattle.hash_once.specs.Internal.Count.{HashOrder, named_again, added_by};

use crate::insert::stands_among;
use hash_order::hashes::same_hash;
use rules::little_endian::u16_at;
use rules::sizes::HASH_SIZE;
use table_order::entry::INDEX_SIZE;
use table_order::merge::build_by_rows;

// Whether entry k of the order and the next one name the same hash.
fn same_next(list: &[u8], order: &[u8], count: usize, k: usize) -> bool
    requires { HashOrder list.now order.now count × (k + 1 < count) }
    ensures { result ≡ eqb (record_hash list.now sizes.hash (u16_at order.now (2 * k)))
        (record_hash list.now sizes.hash (u16_at order.now (2 * (k + 1)))) }
{
    let here = u16_at(order, 2 * k);
    let next = u16_at(order, 2 * (k + 1));
    same_hash(list, here * HASH_SIZE, list, next * HASH_SIZE)
}

// All of them, less each that the next one is again.
fn count_along(list: &[u8], order: &[u8], count: usize) -> usize
    requires { HashOrder list.now order.now count }
    ensures { result ≡ length (ascend (hashes_at list.now 0 count)) }
{
    let mut once = count;
    for k in 0..count {
        if named_again(list, order, count, k) {
            once -= 1;
        }
    }
    once
}

// How many the first hashes of a list are, each counted once.
pub fn count_once(list: &[u8], count: usize) -> usize
    requires { (sizes.hash * count ≤ length list.now) × (count ≤ sizes.rows) }
    ensures { result ≡ length (ascend (hashes_at list.now 0 count)) }
{
    let mut order = [0u8; INDEX_SIZE];
    build_by_rows(list, HASH_SIZE, &mut order, count);
    count_along(list, &order, count)
}

// Whether the entry behind entry k of the order names the same hash.
pub fn named_again(list: &[u8], order: &[u8], count: usize, k: usize) -> bool
    requires { HashOrder list.now order.now count × (k < count) }
    ensures { result ≡ named_again list.now order.now count k }
{
    if k + 1 < count {
        return same_next(list, order, count, k);
    }
    false
}

// What entry k of the order adds to the hashes sent.
fn added_by(list: &[u8], order: &[u8], count: usize, k: usize, sent: &[u8], before: usize) -> usize
    requires { HashOrder list.now order.now count × (k < count)
        × (sizes.hash * before ≤ length sent.now) × (ascends (hashes_at sent.now 0 before) ≡ true) }
    ensures { result ≡ added_by list.now order.now count (hashes_at sent.now 0 before) k }
{
    if named_again(list, order, count, k) {
        return 0;
    }
    let here = u16_at(order, 2 * k);
    if stands_among(sent, before, list, here * HASH_SIZE) {
        return 0;
    }
    1
}

// The hashes sent, and what each entry adds to them.
fn join_along(list: &[u8], order: &[u8], count: usize, sent: &[u8], before: usize) -> usize
    requires { HashOrder list.now order.now count × (count ≤ sizes.rows)
        × (sizes.hash * before ≤ length sent.now) × (before ≤ sizes.sent_hashes) × (ascends (hashes_at sent.now 0 before) ≡ true) }
    ensures { result ≡ length (ascend (hashes_at list.now 0 count ++ hashes_at sent.now 0 before)) }
{
    let mut joined = before;
    for k in 0..count {
        joined += added_by(list, order, count, k, sent, before);
    }
    joined
}

// How many the first hashes of a list are with those sent, each counted once.
pub fn count_joined(list: &[u8], count: usize, sent: &[u8], before: usize) -> usize
    requires { (sizes.hash * count ≤ length list.now) × (count ≤ sizes.rows)
        × (sizes.hash * before ≤ length sent.now) × (before ≤ sizes.sent_hashes) × (ascends (hashes_at sent.now 0 before) ≡ true) }
    ensures { result ≡ length (ascend (hashes_at list.now 0 count ++ hashes_at sent.now 0 before)) }
{
    let mut order = [0u8; INDEX_SIZE];
    build_by_rows(list, HASH_SIZE, &mut order, count);
    join_along(list, &order, count, sent, before)
}
