// The sizes of a waiting row.
use rules::sizes::{DEPENDENCIES, HASH_SIZE};

// Bytes of a waiting row: a hash, a count and zeros in the room of another, and as many hashes as a change may have dependencies.
pub const WAITING_SIZE: usize = HASH_SIZE * (2 + DEPENDENCIES);
// Where the hashes that a waiting row asks for stand in it.
pub const ASKS_PLACE: usize = 2 * HASH_SIZE;
