// A change table checked: beside an index, or by an order that is made of its rows. What is answered is a good table's number of rows, else the refusal.
ghost use Rattle.std.specs.Prelude.{◌≡◌, ◌*◌, ◌/◌, ◌≤◌, length, Err};
ghost use Rattle.rules.specs.Sizes.{sizes};
ghost use Rattle.rules.specs.declared.refusal.Refusal.TheVariants.{BadIndex};
ghost use Rattle.table.specs.TableBytes.{row_size_of, row_good_of, first_bad, table_checked};
ghost use Rattle.table.specs.TableCalls.{passed_on};
ghost use Rattle.table.specs.Widths.{Sized, WithinRows, checked_as};
ghost use Rattle.table_index.specs.Index.{index_checked};
ghost use Rattle.table_check.specs.Internal.Repeats.{CheckedInOrder, RowOrder, fits_within};

use crate::repeat::first_repeat;
use rules::refusal::Refusal;
use rules::sizes::{DEPENDENCIES, ROWS};
use table::check::first_unsound;
use table::row::{ROW_SIZE, row_size};
use table::width::{WIDE, Width};
use table_index::fit::index_fits;
use table_order::entry::INDEX_SIZE;
use table_order::merge::build_by_rows;

// What is answered of a table within its limit, by the first of its whole rows that isn't good. A partial row at its end is a bad one.
fn answer(width: Width, table: &[u8], bad: usize) -> Result<usize, Refusal>
    requires { Sized width × WithinRows width table.now
        × (bad ≡ first_bad (row_good_of width.dependencies table.now) 0 (length table.now / row_size_of width.dependencies)) }
    ensures { result ≡ checked_as width table.now }
{
    let size = row_size(width.dependencies);
    let n = table.len() / size;
    if bad < n {
        return Err(Refusal::BadRow(bad));
    }
    if table.len() % size != 0 {
        return Err(Refusal::BadRow(n));
    }
    Ok(n)
}

// The first of the first n rows that isn't good, or n.
fn first_bad(d: usize, table: &[u8], order: &[u8], n: usize) -> usize
    requires { RowOrder d table.now order.now n }
    ensures { result ≡ first_bad (row_good_of d table.now) 0 n }
{
    let unsound = first_unsound(d, table, n);
    let repeat = first_repeat(d, table, order, n);
    if repeat < unsound {
        return repeat;
    }
    unsound
}

// The check of a table within its limit, by the order of its n whole rows.
pub fn check_ordered(width: Width, table: &[u8], order: &[u8], n: usize) -> Result<usize, Refusal>
    requires { Sized width × WithinRows width table.now × (n ≡ length table.now / row_size_of width.dependencies)
        × RowOrder width.dependencies table.now order.now n }
    ensures { result ≡ checked_as width table.now }
{
    answer(width, table, first_bad(width.dependencies, table, order, n))
}

// The check of a table of a width, by the order of its whole rows, which is made in what is lent for it and left there.
pub fn check_in_order(width: Width, table: &[u8], order: &mut [u8]) -> Result<usize, Refusal>
    requires { Sized width × (width.rows ≤ sizes.rows) × (2 * sizes.rows ≤ length order.old) }
    ensures { CheckedInOrder width table.now order.new result }
{
    let size = row_size(width.dependencies);
    if width.rows * size < table.len() {
        return Err(Refusal::PastSize(0));
    }
    let n = table.len() / size;
    build_by_rows(table, size, order, n);
    check_ordered(width, table, order, n)
}

// The check of a table of a width that is lent with no index: its rows are put in order in memory of the call's own.
pub fn check_as(width: Width, table: &[u8]) -> Result<usize, Refusal>
    requires { Sized width × (width.rows ≤ sizes.rows) }
    ensures { result ≡ checked_as width table.now }
{
    let mut order = [0u8; INDEX_SIZE];
    check_in_order(width, table, &mut order)
}

// The check of a table as rows are.
pub fn check_alone(table: &[u8]) -> Result<usize, Refusal>
    ensures { result ≡ table_checked table.now }
{
    check_as(WIDE, table)
}

// What is answered beside an index that doesn't fit: the table alone decides between its own refusals and the index's.
fn check_unfit(table: &[u8]) -> Result<usize, Refusal>
    ensures { result ≡ passed_on (table_checked table.now) (Err BadIndex) }
{
    check_alone(table)?;
    Err(Refusal::BadIndex)
}

// Whether an index fits a table that is within its limit. Beside a table past it no index is gone through.
fn fits_within(table: &[u8], index: &[u8]) -> bool
    ensures { result ≡ fits_within table.now index.now }
{
    if ROWS * ROW_SIZE < table.len() {
        return false;
    }
    index_fits(table, index, table.len() / ROW_SIZE)
}

// The number of rows of a change table, if it is good and the index fits it. The index is tested once, for all that is looked up by it.
pub fn check_indexed(table: &[u8], index: &[u8]) -> Result<usize, Refusal>
    ensures { result ≡ index_checked table.now index.now }
{
    if !fits_within(table, index) {
        return check_unfit(table);
    }
    answer(
        WIDE,
        table,
        first_unsound(DEPENDENCIES, table, table.len() / ROW_SIZE),
    )
}
