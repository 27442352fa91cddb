// A list of hashes that a call is passed as bytes, which isn't a session's: tested before it is used.
ghost use Rattle.std.specs.Prelude.{◌≡◌, ◌≤◌};
ghost use Rattle.rules.specs.Passed.{passed_up_to, passed_hashes};
ghost use Rattle.rules.specs.Sizes.{sizes};

use crate::refusal::Refusal;
use crate::sizes::{HASH_SIZE, HASHES};

// How many hashes the bytes are: 4 for more than so many, 1 for a partial hash at the end.
pub fn passed_up_to(most: usize, bytes: &[u8]) -> Result<usize, Refusal>
    requires { most ≤ sizes.hashes_to_send }
    ensures { result ≡ passed_up_to most bytes.now }
{
    if most * HASH_SIZE < bytes.len() {
        return Err(Refusal::PastSize(0));
    }
    let count = bytes.len() / HASH_SIZE;
    if bytes.len() % HASH_SIZE != 0 {
        return Err(Refusal::Cut(HASH_SIZE * count));
    }
    Ok(count)
}

// How many hashes the bytes are, of which there may be as many as in a list of a message or a session.
pub fn passed_hashes(bytes: &[u8]) -> Result<usize, Refusal>
    ensures { result ≡ passed_hashes bytes.now }
{
    passed_up_to(HASHES, bytes)
}
