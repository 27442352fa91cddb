// Which rows are good by their own bytes: that a hash stands once shows only beside other rows (table_check).
// Rows have room for d dependencies.
ghost use Rattle.std.specs.Prelude.{◌≡◌, ◌+◌, ◌*◌, ◌≤◌, length};
ghost use Rattle.rules.specs.Zeros.{zeros};
ghost use Rattle.table.specs.TableBytes.{row_size_of, count_of, used_of, unused_of, numbers_good, first_bad};
ghost use Rattle.table.specs.Internal.OwnBytes.{row_sound_of};

use crate::row::{count_of, dep_of, row_place};
use rules::sizes::HASH_SIZE;
use rules::zeros::zero_bytes;

// Whether the numbers in use of row i ascend and are below it.
pub fn numbers_good(d: usize, table: &[u8], i: usize) -> bool
    requires { ((i + 1) * row_size_of d ≤ length table.now) × (count_of d table.now i ≤ d) }
    ensures { result ≡ numbers_good i (used_of d table.now i) }
{
    let count = count_of(d, table, i);
    let mut least = 0;
    for j in 0..count {
        let k = dep_of(d, table, i, j);
        if k < least {
            return false;
        }
        if i <= k {
            return false;
        }
        least = k + 1;
    }
    true
}

// Whether the other numbers of row i are 0: all their bytes at once, as most of a row isn't in use.
pub fn zeros_good(d: usize, table: &[u8], i: usize) -> bool
    requires { ((i + 1) * row_size_of d ≤ length table.now) × (count_of d table.now i ≤ d) }
    ensures { result ≡ zeros (unused_of d table.now i) }
{
    let count = count_of(d, table, i);
    zero_bytes(
        table,
        row_place(d, i) + HASH_SIZE + 2 + 2 * count,
        2 * (d - count),
    )
}

// Whether row i is good by its own bytes: its count, its numbers, and zeros behind them.
fn row_sound(d: usize, table: &[u8], i: usize) -> bool
    requires { (i + 1) * row_size_of d ≤ length table.now }
    ensures { result ≡ row_sound_of d table.now i }
{
    if d < count_of(d, table, i) {
        return false;
    }
    if !numbers_good(d, table, i) {
        return false;
    }
    zeros_good(d, table, i)
}

// The first of the first n rows that isn't, or n.
pub fn first_unsound(d: usize, table: &[u8], n: usize) -> usize
    requires { n * row_size_of d ≤ length table.now }
    ensures { result ≡ first_bad (row_sound_of d table.now) 0 n }
{
    for i in 0..n {
        if !row_sound(d, table, i) {
            return i;
        }
    }
    n
}
