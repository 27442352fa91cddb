// Lists of hashes, each the first of a lent buffer.
ghost use Rattle.std.specs.Prelude.{◌≡◌, ◌*◌, ◌≤◌, length};
ghost use Rattle.hash_order.specs.Order.{ascends};
ghost use Rattle.rules.specs.Hash.{hashes_at};
ghost use Rattle.rules.specs.Sizes.{sizes};
ghost use Rattle.session_check.specs.SessionGood.{list_good, heard_good, sent_good};

use hash_order::hashes::hash_before;
use rules::sizes::{HASH_SIZE, HASHES, SENT_HASHES};

// Whether `count` hashes can be the list that a buffer starts with.
pub fn list_good(bytes: &[u8], count: usize) -> bool
    ensures { result ≡ list_good bytes.now count }
{
    if HASHES < count {
        return false;
    }
    HASH_SIZE * count <= bytes.len()
}

// Whether a list that may be absent is good for the bytes that are lent for it: absent, or no more than a list may have and all of it lent.
pub fn heard_good(bytes: &[u8], heard: Option<usize>) -> bool
    ensures { result ≡ heard_good bytes.now heard }
{
    match heard {
        None => true,
        Some(count) => list_good(bytes, count),
    }
}

// Whether each of the first hashes of a buffer is greater than the one before it.
fn ascending(bytes: &[u8], count: usize) -> bool
    requires { sizes.hash * count ≤ length bytes.now }
    ensures { result ≡ ascends (hashes_at bytes.now 0 count) }
{
    for i in 1..count {
        if !hash_before(bytes, HASH_SIZE * (i - 1), bytes, HASH_SIZE * i) {
            return false;
        }
    }
    true
}

// Whether the sent hashes stand at the start of their buffer, ascending.
pub fn sent_good(bytes: &[u8], count: usize) -> bool
    ensures { result ≡ sent_good bytes.now count }
{
    if SENT_HASHES < count {
        return false;
    }
    if bytes.len() < HASH_SIZE * count {
        return false;
    }
    ascending(bytes, count)
}
