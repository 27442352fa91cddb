// The index of a change table written: made of all its rows, or of the index of all but the last.
ghost use Rattle.std.specs.Prelude.{true, ◌≡◌, ◌*◌, ◌/◌, ◌≤◌, length};
ghost use Rattle.rules.specs.Output.{Written, Output};
ghost use Rattle.rules.specs.Sizes.{sizes};
ghost use Rattle.table.specs.TableBytes.{row_size, rows_at, u16s_at, u16s_bytes};
ghost use Rattle.table_index.specs.Index.{index_of};
ghost use Rattle.table_index_build.specs.Indexing.{built_output, fits_but_last, extended_output};

use crate::extend::extend;
use rules::put::copy_into;
use rules::refusal::Refusal;
use rules::sizes::ROWS;
use table::row::ROW_SIZE;
use table::width::WIDE;
use table_check::check::{check_alone, check_ordered};
use table_index::fit::index_fits;
use table_order::entry::INDEX_SIZE;
use table_order::merge::build_by_rows;

// Writes the first n entries of an index.
fn put_index(index: &[u8], n: usize, out: &mut [u8]) -> Result<usize, Refusal>
    requires { 2 * n ≤ length index.now }
    ensures { Written (Output.bytes (u16s_bytes (u16s_at index.now 0 n))) out.old out.new result }
{
    let size = 2 * n;
    if out.len() < size {
        return Err(Refusal::NoRoom(size));
    }
    copy_into(out, 0, &index[..size]);
    Ok(size)
}

// Checks a table within its limit beside its index, and writes that.
fn put_built(table: &[u8], index: &[u8], n: usize, out: &mut [u8]) -> Result<usize, Refusal>
    requires { (length table.now ≤ sizes.rows * row_size) × (n ≡ length table.now / row_size) × (2 * n ≤ length index.now)
        × (u16s_at index.now 0 n ≡ index_of (rows_at table.now 0 n)) }
    ensures { Written (built_output table.now) out.old out.new result }
{
    check_ordered(WIDE, table, index, n)?;
    put_index(index, n, out)
}

// Builds the index of a table.
pub fn build_index(table: &[u8], out: &mut [u8]) -> Result<usize, Refusal>
    ensures { Written (built_output table.now) out.old out.new result }
{
    if ROWS * ROW_SIZE < table.len() {
        return Err(Refusal::PastSize(0));
    }
    let n = table.len() / ROW_SIZE;
    let mut index = [0u8; INDEX_SIZE];
    build_by_rows(table, ROW_SIZE, &mut index, n);
    put_built(table, &index, n, out)
}

// Whether an index fits the first n rows but the last of them.
fn fits_but_last(table: &[u8], index: &[u8], n: usize) -> bool
    requires { n * row_size ≤ length table.now }
    ensures { result ≡ fits_but_last table.now n index.now }
{
    if n == 0 {
        return false;
    }
    index_fits(table, index, n - 1)
}

// Writes the index of a table, made of one that fits all rows but the last.
fn put_extended(table: &[u8], index: &[u8], n: usize, out: &mut [u8]) -> Result<usize, Refusal>
    requires { (length table.now ≤ sizes.rows * row_size) × (n ≡ length table.now / row_size) × (fits_but_last table.now n index.now ≡ true) }
    ensures { Written (built_output table.now) out.old out.new result }
{
    let mut extended = [0u8; INDEX_SIZE];
    copy_into(&mut extended, 0, index);
    extend(table, ROW_SIZE, &mut extended, n - 1);
    put_built(table, &extended, n, out)
}

// Extends an index of all rows but the last by that one.
pub fn extend_index(table: &[u8], index: &[u8], out: &mut [u8]) -> Result<usize, Refusal>
    ensures { Written (extended_output table.now index.now) out.old out.new result }
{
    if ROWS * ROW_SIZE < table.len() {
        return Err(Refusal::PastSize(0));
    }
    let n = table.len() / ROW_SIZE;
    if fits_but_last(table, index, n) {
        return put_extended(table, index, n, out);
    }
    check_alone(table)?;
    Err(Refusal::BadIndex)
}
