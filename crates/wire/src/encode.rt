// Prefixed strings and hash lists, written (`encode_hashes` and `encode_many` of src/sync.rs).
ghost use Rattle.std.specs.Prelude.{◌++◌};
ghost use Rattle.rules.specs.Output.{Written, Output};
ghost use Rattle.wire.specs.Item.{prefixed_bytes, hash_list_output};
ghost use Rattle.leb128.specs.Number.{shortest};

use leb128::leb128::{put_unsigned, unsigned_size};
use rules::passed::passed_hashes;
use rules::put::copy_into;
use rules::refusal::Refusal;

// Writes a count, and the bytes that it counts in some unit.
fn encode(out: &mut [u8], count: u64, bytes: &[u8]) -> Result<usize, Refusal>
    ensures { Written (Output.bytes (shortest count ++ bytes.now)) out.old out.new result }
{
    let size = unsigned_size(count) + bytes.len();
    if out.len() < size {
        return Err(Refusal::NoRoom(size));
    }
    let at = put_unsigned(out, 0, count);
    copy_into(out, at, bytes);
    Ok(size)
}

// Writes a prefixed string.
pub fn encode_bytes(out: &mut [u8], bytes: &[u8]) -> Result<usize, Refusal>
    ensures { Written (Output.bytes (prefixed_bytes bytes.now)) out.old out.new result }
{
    encode(out, bytes.len() as u64, bytes)
}

// Writes a hash list, lent as the bytes of its hashes.
pub fn encode_hashes(out: &mut [u8], hashes: &[u8]) -> Result<usize, Refusal>
    ensures { Written (hash_list_output hashes.now) out.old out.new result }
{
    // Not by `?`: the edit write_hashes_refusal puts another refusal into this arm.
    let count = match passed_hashes(hashes) {
        Ok(count) => count,
        Err(refusal) => return Err(refusal),
    };
    encode(out, count as u64, hashes)
}
