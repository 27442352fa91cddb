// The hashes to send: held needs outside S in the order of the request, then S in table order.
ghost use Rattle.std.specs.Prelude.{true, ◌≡◌};
ghost use Rattle.bloom.specs.Have.{haves_of, passed_good};
ghost use Rattle.table_index.specs.Index.{Indexed};
ghost use Rattle.rules.specs.Hash.{hashes_at, hashes_bytes};
ghost use Rattle.rules.specs.Output.{Written, Output};
ghost use Rattle.table.specs.TableBytes.{rows_at};
ghost use Rattle.send.specs.Internal.Chosen.{Choosable};
ghost use Rattle.send.specs.ToSend.{to_send, send_needs, to_send_output};

use crate::chosen::{choose, put_chosen};
use bloom::have::{passed_few, passed_good};
use rules::passed::passed_hashes;
use rules::refusal::Refusal;
use rules::sizes::{HASH_SIZE, HASHES, ROWS};
use table_check::check::check_indexed;

// The hashes to send for a table, haves and a need list that have been checked. No hash was sent before. Its arrays aren't to stand on the stack while the
// table is checked, as they would inside its caller.
#[inline(never)]
pub fn put_to_send(
    table: &[u8],
    index: &[u8],
    n: usize,
    bytes: &[u8],
    haves: &[u64],
    need: &[u8],
    place: usize,
    count: usize,
    out: &mut [u8],
) -> Result<usize, Refusal>
    requires { Choosable table.now index.now n bytes.now haves.now need.now place count }
    ensures { Written (Output.bytes (hashes_bytes (to_send (rows_at table.now 0 n) (haves_of bytes.now haves.now)
        (hashes_at need.now place count)))) out.old out.new result }
{
    let past = [false; ROWS];
    let mut marks = [false; ROWS];
    let mut needs = [false; HASHES];
    let total = choose(
        table, index, n, bytes, haves, need, place, count, &past, &mut marks, &mut needs,
    );
    let size = HASH_SIZE * total;
    if out.len() < size {
        return Err(Refusal::NoRoom(size));
    }
    put_chosen(table, n, &marks, need, place, count, &needs, out);
    Ok(size)
}

// Writes the hashes to send, or refuses, for callers that have checked the table and the haves' numbers, but not the need list and the haves' sizes.
fn send_needs(
    table: &[u8],
    index: &[u8],
    n: usize,
    bytes: &[u8],
    haves: &[u64],
    need: &[u8],
    out: &mut [u8],
) -> Result<usize, Refusal>
    requires { Indexed table.now index.now n × (passed_good bytes.now haves.now ≡ true) }
    ensures { Written (send_needs (rows_at table.now 0 n) bytes.now haves.now need.now)
        out.old out.new result }
{
    let count = passed_hashes(need)?;
    if !passed_few(haves) {
        return Err(Refusal::PastSize(0));
    }
    put_to_send(table, index, n, bytes, haves, need, 0, count, out)
}

// The hashes to send for haves that are records over the bytes, and a need list that is lent as the bytes of its hashes.
pub fn get_hashes_to_send(
    table: &[u8],
    index: &[u8],
    bytes: &[u8],
    haves: &[u64],
    need: &[u8],
    out: &mut [u8],
) -> Result<usize, Refusal>
    ensures { Written (to_send_output table.now index.now bytes.now haves.now need.now)
        out.old out.new result }
{
    if !passed_good(bytes, haves) {
        return Err(Refusal::BadNumbers);
    }
    let n = check_indexed(table, index)?;
    send_needs(table, index, n, bytes, haves, need, out)
}
