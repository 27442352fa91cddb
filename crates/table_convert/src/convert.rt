// The converter, and its two directions.
ghost use Rattle.std.specs.Prelude.{◌≡◌, ◌+◌, ◌*◌, ◌^◌, ◌≤◌, ◌<◌, length, Ok};
ghost use Rattle.rules.specs.Output.{Output, Written};
ghost use Rattle.rules.specs.Sizes.{sizes};
ghost use Rattle.table.specs.TableBytes.{row_size_of, rows_of, whole_rows_of, first_bad};
ghost use Rattle.table.specs.TableWritten.{table_bytes_of};
ghost use Rattle.table.specs.Widths.{Sized, checked_as};
ghost use Rattle.table_convert.specs.Internal.RowsPut.{count_fits, Fitting};
ghost use Rattle.table_convert.specs.Rows.{bytes_as, converted, widened, narrowed};

use crate::put::put_rows;
use rules::refusal::Refusal;
use table::row::{count_of, row_place};
use table::width::{NARROW, WIDE, Width};
use table_check::check::check_as;

// The first of the first n rows, which have room for d dependencies, that says more of them than there is room for, or n.
fn first_wide(d: usize, room: usize, table: &[u8], n: usize) -> usize
    requires { n * row_size_of d ≤ length table.now }
    ensures { result ≡ first_bad (count_fits d room table.now) 0 n }
{
    for i in 0..n {
        if room < count_of(d, table, i) {
            return i;
        }
    }
    n
}

// Writes the first n rows, which fit both widths.
fn write_rows(
    from: usize,
    to: usize,
    table: &[u8],
    n: usize,
    out: &mut [u8],
) -> Result<usize, Refusal>
    requires { Fitting from to table.now n × ((n + 1) * row_size_of to < 2 ^ 64) }
    ensures { Written (Output.bytes (table_bytes_of to (rows_of from table.now 0 n))) out.old out.new result }
{
    let size = row_place(to, n);
    if out.len() < size {
        return Err(Refusal::NoRoom(size));
    }
    put_rows(from, to, table, n, out);
    Ok(size)
}

// Writes a good table of n rows as one of another width.
fn convert_good(
    from: Width,
    to: Width,
    table: &[u8],
    n: usize,
    out: &mut [u8],
) -> Result<usize, Refusal>
    requires { Sized to × (checked_as from table.now ≡ Ok n) }
    ensures { Written (bytes_as to (whole_rows_of from.dependencies table.now)) out.old out.new result }
{
    if to.rows < n {
        return Err(Refusal::PastSize(0));
    }
    let wide = first_wide(from.dependencies, to.dependencies, table, n);
    if wide < n {
        return Err(Refusal::TooWide(wide));
    }
    write_rows(from.dependencies, to.dependencies, table, n, out)
}

// Writes a table of one width as one of another.
fn convert(from: Width, to: Width, table: &[u8], out: &mut [u8]) -> Result<usize, Refusal>
    requires { Sized from × Sized to × (from.rows ≤ sizes.rows) }
    ensures { Written (converted from to table.now) out.old out.new result }
{
    let n = check_as(from, table)?;
    convert_good(from, to, table, n, out)
}

// Writes a table of the old rows as one of today's.
pub fn widen_rows(table: &[u8], out: &mut [u8]) -> Result<usize, Refusal>
    ensures { Written (widened table.now) out.old out.new result }
{
    convert(NARROW, WIDE, table, out)
}

// Writes a table of today's rows as one of the old.
pub fn narrow_rows(table: &[u8], out: &mut [u8]) -> Result<usize, Refusal>
    ensures { Written (narrowed table.now) out.old out.new result }
{
    convert(WIDE, NARROW, table, out)
}
