// The numbers of a change row: a hash, a count, and row numbers, two bytes each. A row has room for d of these; the names without d are for as many
// as a change may have dependencies.
ghost use Rattle.std.specs.Prelude.{◌≡◌, ◌+◌, ◌*◌, ◌^◌, ◌≤◌, ◌<◌, length};
ghost use Rattle.rules.specs.LittleEndian.{u16_at};
ghost use Rattle.rules.specs.Sizes.{sizes};
ghost use Rattle.table.specs.TableBytes.{row_size_of, count_of, row_size, dep_count};

use rules::little_endian::u16_at;
use rules::sizes::{DEPENDENCIES, HASH_SIZE};

// Bytes of a change row.
pub const ROW_SIZE: usize = HASH_SIZE + 2 * (1 + DEPENDENCIES);

// Bytes of a row with room for d dependencies.
pub fn row_size(d: usize) -> usize
    requires { row_size_of d < 2 ^ 64 }
    ensures { result ≡ row_size_of d }
{
    HASH_SIZE + 2 * (1 + d)
}

// Where row i starts.
pub fn row_place(d: usize, i: usize) -> usize
    requires { (i + 1) * row_size_of d < 2 ^ 64 }
    ensures { result ≡ i * row_size_of d }
{
    i * row_size(d)
}

// How many dependencies row i says that it has.
pub fn count_of(d: usize, table: &[u8], i: usize) -> usize
    requires { (i + 1) * row_size_of d ≤ length table.now }
    ensures { result ≡ count_of d table.now i }
{
    u16_at(table, row_place(d, i) + HASH_SIZE)
}

// The j-th row number of row i.
pub fn dep_of(d: usize, table: &[u8], i: usize, j: usize) -> usize
    requires { ((i + 1) * row_size_of d ≤ length table.now) × (j < d) }
    ensures { result ≡ u16_at table.now (i * row_size_of d + sizes.hash + 2 + 2 * j) }
{
    u16_at(table, row_place(d, i) + HASH_SIZE + 2 + 2 * j)
}

// How many dependencies row i says that it has.
pub fn dep_count(table: &[u8], i: usize) -> usize
    requires { (i + 1) * row_size ≤ length table.now }
    ensures { result ≡ dep_count table.now i }
{
    count_of(DEPENDENCIES, table, i)
}

// The j-th row number of row i.
pub fn dep(table: &[u8], i: usize, j: usize) -> usize
    requires { ((i + 1) * row_size ≤ length table.now) × (j < sizes.dependencies) }
    ensures { result ≡ u16_at table.now (i * row_size + sizes.hash + 2 + 2 * j) }
{
    dep_of(DEPENDENCIES, table, i, j)
}
