// The shared heads after a message, by what is known of its heads and whether changes were loaded.
ghost use Rattle.std.specs.Prelude.{◌≡◌, ◌+◌, ◌*◌, ◌≤◌, length};
ghost use Rattle.std.proofs.lemmas.List.Edits.{sets};
ghost use Rattle.rules.specs.Hash.{hashes_at, hashes_bytes};
ghost use Rattle.rules.specs.Sizes.{sizes};
ghost use Rattle.table.specs.TableBytes.{rows_at};
ghost use Rattle.table_index.specs.Index.{Indexed};
ghost use Rattle.receive_shared.specs.Internal.Shared.{shared_then};

use crate::advance::{count_advanced, put_advanced};
use crate::join::{count_joined, put_joined};
use rules::put::copy_into;
use rules::sizes::HASH_SIZE;

// How many heads are shared after a message whose heads stand at a place of it. `all`: whether all of its heads are held; `loads`: whether changes were
// loaded.
pub fn count_shared(
    all: bool,
    loads: bool,
    table: &[u8],
    index: &[u8],
    n: usize,
    before: usize,
    shared: &[u8],
    count: usize,
    message: &[u8],
    place: usize,
    many: usize,
) -> usize
    requires { Indexed table.now index.now n × (before ≤ n) × (sizes.hash * count ≤ length shared.now)
        × (place + sizes.hash * many ≤ length message.now) × (count ≤ sizes.hashes) }
    ensures { result ≡ length (shared_then all loads before (rows_at table.now 0 n) (hashes_at message.now place many)
        (hashes_at shared.now 0 count)) }
{
    if all {
        return many;
    }
    if loads {
        return count_advanced(table, index, n, before, shared, count, message, place, many);
    }
    count_joined(table, index, n, shared, count, message, place, many)
}

// Puts the heads that are shared after a message, for which there is room, at the start of the list of those shared before.
pub fn put_shared(
    all: bool,
    loads: bool,
    table: &[u8],
    index: &[u8],
    n: usize,
    before: usize,
    shared: &mut [u8],
    count: usize,
    message: &[u8],
    place: usize,
    many: usize,
)
    requires { Indexed table.now index.now n × (before ≤ n) × (sizes.hash * count ≤ length shared.old) × (place + sizes.hash * many ≤ length message.now)
        × (sizes.hash * length (shared_then all loads before (rows_at table.now 0 n) (hashes_at message.now place many) (hashes_at shared.old 0 count))
        ≤ length shared.old) }
    ensures { shared.new ≡ sets shared.old 0 (hashes_bytes
        (shared_then all loads before (rows_at table.now 0 n) (hashes_at message.now place many) (hashes_at shared.old 0 count))) }
{
    if all {
        copy_into(shared, 0, &message[place..place + HASH_SIZE * many]);
        return;
    }
    if loads {
        put_advanced(table, index, n, before, shared, count, message, place, many);
        return;
    }
    put_joined(table, index, n, shared, count, message, place, many);
}
