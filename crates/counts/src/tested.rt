// The listener's rows that the sender doesn't hold: how many, and how many of them a filter contains.
ghost use Rattle.std.specs.Prelude.{◌≡◌, ◌+◌, ◌*◌, ◌≤◌, ◌<◌, length};
ghost use Rattle.bloom.specs.Have.{GoodFilters, filters_of};
ghost use Rattle.bloom_probe.specs.Contains.{any_contains};
ghost use Rattle.counts.specs.Internal.Walked.{tested_next, TestedBy};
ghost use Rattle.rules.specs.Hash.{hash_at};
ghost use Rattle.rules.specs.Sizes.{sizes};
ghost use Rattle.table.specs.Table.{rows};
ghost use Rattle.table.specs.TableBytes.{rows_at, row_size};

use bloom_probe::contains::contains_hash;
use table::row::ROW_SIZE;

#[derive(Clone, Copy)]
pub struct Tested {
    pub rows: u64,
    pub contained: u64,
}

// One row more, with its mark and where its hash stands.
fn tested_next(
    tested: Tested,
    held: bool,
    bytes: &[u8],
    haves: &[u64],
    table: &[u8],
    at: usize,
) -> Tested
    requires { GoodFilters bytes.now haves.now × (at + sizes.hash ≤ length table.now) × (tested.rows < sizes.rows) × (tested.contained < sizes.rows) }
    ensures { result ≡ tested_next tested held (any_contains (filters_of bytes.now haves.now) (hash_at table.now at)) }
{
    if held {
        return tested;
    }
    if contains_hash(bytes, haves, table, at) {
        return Tested {
            rows: tested.rows + 1,
            contained: tested.contained + 1,
        };
    }
    Tested {
        rows: tested.rows + 1,
        contained: tested.contained,
    }
}

// Tests the first n rows of a table that aren't marked, in table order, by the haves' filters.
pub fn test_rows(table: &[u8], n: usize, marks: &[bool], bytes: &[u8], haves: &[u64]) -> Tested
    requires { GoodFilters bytes.now haves.now × (n * row_size ≤ length table.now) × (n ≤ sizes.rows) × (n ≤ length marks.now) }
    ensures { TestedBy marks.now (any_contains (filters_of bytes.now haves.now)) (rows (rows_at table.now 0 n)) result }
{
    let mut tested = Tested {
        rows: 0,
        contained: 0,
    };
    for i in 0..n {
        tested = tested_next(tested, marks[i], bytes, haves, table, i * ROW_SIZE);
    }
    tested
}
