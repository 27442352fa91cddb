// Whether a row goes, over marks of the rows that are listed and of those that are picked.
ghost use Rattle.std.specs.Prelude.{◌≡◌, ◌+◌, ◌≤◌, length};
ghost use Rattle.pick.specs.Internal.PickMarks.{marked_go, row_goes};
ghost use Rattle.table.specs.TableBytes.{used_at, GoodRows};

use table::row::{dep, dep_count};

// Whether what row i depends on goes with it: each of these rows that is listed is picked. What they depend on in turn is their own affair.
pub fn goes_with(table: &[u8], i: usize, listed: &[bool], picks: &[bool]) -> bool
    requires { GoodRows table.now (i + 1) × (i ≤ length listed.now) × (i ≤ length picks.now) }
    ensures { result ≡ marked_go listed.now picks.now (used_at table.now i) }
{
    for j in 0..dep_count(table, i) {
        let k = dep(table, i, j);
        if listed[k] && !picks[k] {
            return false;
        }
    }
    true
}

// Whether row i goes now, where so much is left and these rows were picked before it.
pub fn goes_now(
    table: &[u8],
    i: usize,
    size: u64,
    left: u64,
    listed: &[bool],
    picks: &[bool],
) -> bool
    requires { GoodRows table.now (i + 1) × (i + 1 ≤ length listed.now) × (i ≤ length picks.now) }
    ensures { result ≡ row_goes table.now listed.now picks.now size left i }
{
    if !listed[i] {
        return false;
    }
    if left < size {
        return false;
    }
    goes_with(table, i, listed, picks)
}
