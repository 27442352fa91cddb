// Rows put as rows of another width. Those that are read have room for `from` dependencies, those that are put for `to`.
ghost use Rattle.std.specs.Prelude.{◌≡◌, ◌+◌, ◌*◌, ◌≤◌, length, replicate};
ghost use Rattle.std.proofs.lemmas.List.Edits.{sets};
ghost use Rattle.table.specs.TableBytes.{row_size_of, count_of, row_of, rows_of};
ghost use Rattle.table.specs.TableWritten.{row_bytes_of, table_bytes_of};
ghost use Rattle.table_convert.specs.Internal.RowsPut.{Fitting};

use rules::put::copy_into;
use rules::sizes::HASH_SIZE;
use table::row::{count_of, row_place};

// Puts zeros at a place of the buffer.
pub fn put_zeros(out: &mut [u8], at: usize, count: usize)
    requires { at + count ≤ length out.old }
    ensures { out.new ≡ sets out.old at (replicate count 0) }
{
    out[at..at + count].fill(0);
}

// Puts row i in its place.
fn put_row(from: usize, to: usize, table: &[u8], i: usize, out: &mut [u8])
    requires { ((i + 1) * row_size_of from ≤ length table.now) × ((i + 1) * row_size_of to ≤ length out.old)
        × (count_of from table.now i ≤ from) × (count_of from table.now i ≤ to) }
    ensures { out.new ≡ sets out.old (i * row_size_of to) (row_bytes_of to (row_of from table.now i)) }
{
    let count = count_of(from, table, i);
    let start = row_place(from, i);
    let place = row_place(to, i);
    let used = HASH_SIZE + 2 + 2 * count;
    copy_into(out, place, &table[start..start + used]);
    put_zeros(out, place + used, 2 * (to - count));
}

// Puts the first n rows.
pub fn put_rows(from: usize, to: usize, table: &[u8], n: usize, out: &mut [u8])
    requires { Fitting from to table.now n × (n * row_size_of to ≤ length out.old) }
    ensures { out.new ≡ sets out.old 0 (table_bytes_of to (rows_of from table.now 0 n)) }
{
    for i in 0..n {
        put_row(from, to, table, i, out);
    }
}
